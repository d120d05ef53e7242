//! A text that is written piece by piece.

ghost use Rattle.std.specs.Prelude.{◌≡◌, ◌++◌, [], false, IfOk};
ghost use Rattle.std.specs.List.{flat_map};
ghost use Rattle.cex_story.specs.Pages.{Adds};

use mw_text::{Addr, List, Prefix};
use std::alloc::{AllocError, Global};

/// The text so far. Want of memory is noted, and answered where the text is taken.
#[derive(Drop)]
pub struct Page {
    pub alloc: Global,
    pub text: List<u8>,
    pub full: bool,
}

/// The address in dotted decimal (RFC 1123, section 2.1).
fn address_text(alloc: Global, a: Addr) -> Result<String, AllocError> {
    let first = a.0 / 0x100_0000 % 256;
    let second = a.0 / 0x1_0000 % 256;
    let third = a.0 / 0x100 % 256;
    let fourth = a.0 % 256;
    format!(in alloc; "{first}.{second}.{third}.{fourth}")
}

impl Page {
    /// An empty text.
    pub fn new(alloc: Global) -> Page
        ensures text { result.text ≡ [] }
        ensures full { result.full ≡ false }
    {
        Page {
            alloc,
            text: List::new(alloc),
            full: false,
        }
    }

    /// Puts bytes at the end.
    pub fn bytes(&mut self, bytes: &[u8])
        ensures { Adds self.old self.new bytes.now }
    {
        match self.text.items.extend_from_slice(bytes) {
            Ok(()) => {}
            Err(_) => self.full = true,
        }
    }

    /// Puts pieces at the end.
    #[tactic(auto, using(crate::proofs::Adding::adds_none, crate::proofs::Adding::adds_more, crate::proofs::Adding::adds_all))]
    pub fn put(&mut self, pieces: &[&[u8]])
        ensures { Adds self.old self.new (flat_map (λ piece. piece.now) pieces.now) }
    {
        for piece in pieces {
            self.bytes(piece);
        }
    }

    /// Puts a name as it stands within quotes: each quote and backslash behind a backslash.
    pub fn quoted(&mut self, name: &[u8]) {
        for byte in name {
            if *byte == b'"' || *byte == b'\\' {
                self.bytes(b"\\");
            }
            self.bytes(&[*byte]);
        }
    }

    /// Puts a number at the end.
    pub fn number(&mut self, n: u64) {
        match n.to_string(self.alloc) {
            Ok(digits) => self.bytes(digits.as_bytes()),
            Err(_) => self.full = true,
        }
    }

    /// Puts words and then a number at the end.
    pub fn counted(&mut self, words: &[u8], n: u32) {
        self.bytes(words);
        self.number(u64::from(n))
    }

    /// Puts words and then an address at the end.
    pub fn address(&mut self, words: &[u8], a: Addr) {
        self.bytes(words);
        match address_text(self.alloc, a) {
            Ok(text) => self.bytes(text.as_bytes()),
            Err(_) => self.full = true,
        }
    }

    /// Puts words and then a prefix at the end.
    pub fn prefix(&mut self, words: &[u8], p: &Prefix) {
        self.address(words, p.addr);
        self.counted(b"/", u32::from(p.len))
    }

    /// The text, where there was memory for all of it.
    pub fn done(self) -> Result<List<u8>, AllocError>
        ensures { IfOk result (λ text. (text ≡ self.text) × (self.full ≡ false)) }
    {
        if self.full {
            return Err(AllocError);
        }
        Ok(self.text)
    }
}
