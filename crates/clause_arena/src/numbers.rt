//! The words of an arena: of 32 bits while every number in them is below 2^32, and of 64 from then on.

ghost use Rattle.std.specs.Prelude.{◌≡◌, ◌+◌, ◌-◌, ◌<◌, ◌≤◌, ◌++◌, IfOk, OnErr, length, replicate, set, take};
ghost use Rattle.clause_arena.specs.Links.{word};
ghost use Rattle.clause_arena.specs.Compacted.{IsCopied};

use std::alloc::{AllocError, Global};
use std::marker::Model;

/// What a word of 32 bits does not hold.
const TOO_WIDE: u64 = 4294967296;

/// Numbers in a row. What they are does not tell how wide their words are.
#[derive(Drop)]
pub(crate) struct Words {
    narrow: Vec<u32>,
    wide: Vec<u64>,
    is_wide: bool,
}

impl Model for Words {
    ghost use Rattle.std.specs.Prelude.{ℕ, ◌≤◌, List, if◌then◌else◌, length};

    ghost Value = { List ℕ };

    ghost view = { λ w. if w.is_wide then w.wide.items else w.narrow.items };

    ghost invariant = { λ w. length w.narrow.items ≤ 4294967296 };
}

/// The same numbers in words of 64 bits.
fn widened(alloc: Global, narrow: &[u32]) -> Result<Vec<u64>, AllocError>
    ensures { IfOk result (λ wide. wide.items ≡ narrow.now) }
{
    let mut wide = Vec::new(alloc);
    for number in narrow.iter() {
        wide.push(u64::from(*number))?;
    }
    Ok(wide)
}

/// So many words with zeros behind those that are there, and a number at a place.
fn extend_narrow(words: &mut Vec<u32>, len: usize, at: usize, number: u32) -> Result<(), AllocError>
    requires longer { length words.old.items ≤ len }
    requires at { at < len }
    ensures ok { IfOk result (λ _. words.new.items
        ≡ set (words.old.items ++ replicate (len - length words.old.items) 0) at number) }
    ensures unchanged { OnErr result (words.new.items ≡ words.old.items) }
{
    words.resize(len, 0)?;
    words[at] = number;
    Ok(())
}

/// The same in words of 64 bits.
fn extend_wide(words: &mut Vec<u64>, len: usize, at: usize, number: u64) -> Result<(), AllocError>
    requires longer { length words.old.items ≤ len }
    requires at { at < len }
    ensures ok { IfOk result (λ _. words.new.items
        ≡ set (words.old.items ++ replicate (len - length words.old.items) 0) at number) }
    ensures unchanged { OnErr result (words.new.items ≡ words.old.items) }
{
    words.resize(len, 0)?;
    words[at] = number;
    Ok(())
}

impl Words {
    /// So many numbers that are 0.
    pub(crate) fn zeros(alloc: Global, len: u64) -> Result<Words, AllocError>
        ensures { IfOk result (λ words. words ≡ replicate len 0) }
    {
        let mut narrow = Vec::new(alloc);
        let mut wide = Vec::new(alloc);
        let is_wide = len > TOO_WIDE;
        if is_wide {
            wide.resize(len as usize, 0)?;
        } else {
            narrow.resize(len as usize, 0)?;
        }
        Ok(Words {
            narrow,
            wide,
            is_wide,
        })
    }

    /// A law, with no effect: their count is below 2^63.
    pub(crate) fn is_short(&self)
        ensures { length self.now < 9223372036854775808 }
    {
        if self.is_wide {
            let _ = self.wide.len();
        } else {
            let _ = self.narrow.len();
        }
    }

    /// How many there are.
    pub(crate) fn len(&self) -> usize
        ensures { result ≡ length self.now }
    {
        if self.is_wide {
            self.wide.len()
        } else {
            self.narrow.len()
        }
    }

    /// The number at a place.
    pub(crate) fn get(&self, at: u64) -> u64
        requires { at < length self.now }
        ensures { result ≡ word self.now at }
    {
        if self.is_wide {
            self.wide[at as usize]
        } else {
            u64::from(self.narrow[at as usize])
        }
    }

    /// Writes a number below their count, which words of either width hold.
    pub(crate) fn put(&mut self, at: u64, number: u64)
        requires at { at < length self.old }
        requires number { number < length self.old }
        ensures { self.new ≡ set self.old at number }
    {
        if self.is_wide {
            self.wide[at as usize] = number;
        } else {
            self.narrow[at as usize] = number as u32;
        }
    }

    /// Writes a number that is not above the one that stands there.
    pub(crate) fn lower(&mut self, at: u64, number: u64)
        requires at { at < length self.old }
        requires number { number ≤ word self.old at }
        ensures { self.new ≡ set self.old at number }
    {
        if self.is_wide {
            self.wide[at as usize] = number;
        } else {
            let _there = self.narrow[at as usize];
            self.narrow[at as usize] = number as u32;
        }
    }

    /// Writes the number that stands at another place.
    pub(crate) fn copy(&mut self, from: u64, to: u64)
        requires from { from < length self.old }
        requires to { to < length self.old }
        ensures { self.new ≡ set self.old to (word self.old from) }
    {
        if self.is_wide {
            self.wide[to as usize] = self.wide[from as usize];
        } else {
            self.narrow[to as usize] = self.narrow[from as usize];
        }
    }

    /// Makes them so many, with zeros behind those that are there, and writes a number at a place.
    ///
    /// # Errors
    /// Want of memory alone. The numbers are then unchanged.
    pub(crate) fn grow(&mut self, len: usize, at: usize, number: u64) -> Result<(), AllocError>
        requires longer { length self.old ≤ len }
        requires at { at < len }
        ensures ok { IfOk result (λ _. self.new ≡ set (self.old ++ replicate (len - length self.old) 0) at number) }
        ensures unchanged { OnErr result (self.new ≡ self.old) }
    {
        if self.is_wide {
            return extend_wide(&mut self.wide, len, at, number);
        }
        if len as u64 <= TOO_WIDE && number < TOO_WIDE {
            return extend_narrow(&mut self.narrow, len, at, number as u32);
        }
        let mut wide = widened(*self.narrow.allocator(), &self.narrow)?;
        extend_wide(&mut wide, len, at, number)?;
        self.wide = wide;
        self.is_wide = true;
        self.narrow.clear();
        self.narrow.shrink_to_fit();
        Ok(())
    }

    /// Copies numbers downwards.
    pub(crate) fn copy_down(&mut self, from: u64, to: u64, count: u64)
        requires inside { from + count ≤ length self.old }
        requires below { to ≤ from }
        ensures copied { IsCopied (word self.old) (word self.new) from to count }
        ensures len { length self.new ≡ length self.old }
    {
        self.is_short();
        if self.is_wide {
            self.wide
                .copy_within(from as usize..(from + count) as usize, to as usize);
        } else {
            self.narrow
                .copy_within(from as usize..(from + count) as usize, to as usize);
        }
    }

    /// Leaves out what stands behind so many.
    pub(crate) fn truncate(&mut self, len: u64)
        requires { len ≤ length self.old }
        ensures { self.new ≡ take len self.old }
    {
        if self.is_wide {
            self.wide.truncate(len as usize);
        } else {
            self.narrow.truncate(len as usize);
        }
    }
}
