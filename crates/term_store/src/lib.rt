//! Terms over Boolean variables: a store in which no node stands twice.
//!
//! A node is a constant, a variable, or a gate over nodes of smaller numbers. The store numbers its nodes by their first
//! appearance, so an equal node always has the same number. Contracts see the list of the nodes and the number of
//! variables. What a call says of its results speaks of readings (`specs/Reading.antt`): it stays true while the store
//! grows.
#![tactic(auto)]

ghost use Rattle.std.specs.Prelude.{◌≡◌, ℕ, ◌+◌, ◌<◌, ◌≤◌, Bool, List, [], ◌∷◌, ◌++◌, Some, slice_get, IfOk, OnOk, OnErr, ◌^◌, ◌↔◌, IsTrue};
ghost use Rattle.term_store.specs.Terms.{Store, Reading, size, at, gate, value_of, reading_of, IsBelow, IsSound, StandsOnce, Puts, Agrees};
ghost use Rattle.term_store.specs.Reading.{Reads, Stands, Grows, Builds, Gives};

use indexmap::IndexSet;
use std::alloc::{AllocError, Global};
use std::marker::Model;

/// The number of a node: its position in the store.
#[derive(Debug, Clone, Copy, PartialEq, Eq, Hash)]
pub struct NodeId(pub u64);

/// How many variables a store may have.
const MOST_VARS: u64 = 9223372036854775808;

/// A node: a constant, a variable by its number, or a gate over nodes of the store.
#[derive(Clone, Copy, PartialEq, Eq, Hash)]
pub enum Node {
    Const(bool),
    Var(u64),
    Not(NodeId),
    And(NodeId, NodeId),
    Or(NodeId, NodeId),
    Xor(NodeId, NodeId),
    /// The value of the second operand where the first is true, else that of the third.
    Ite(NodeId, NodeId, NodeId),
}

/// A store of nodes. Nodes are only added, each above its operands.
#[derive(Drop)]
pub struct Terms {
    nodes: IndexSet<Node>,
    vars: u64,
}

impl Model for Terms {
    ghost use Rattle.term_store.specs.Terms.{Store as Seen, IsSound as Sound};

    ghost Value = { Seen };

    ghost view = { λ t. record { nodes = t.nodes.keys; vars = t.vars } };

    ghost invariant = { λ t. Sound t.nodes.keys t.vars };
}

/// Puts a node into the set and answers its index there.
fn put(nodes: &mut IndexSet<Node>, node: Node) -> Result<usize, AllocError>
    ensures stands { IfOk result (λ i. slice_get nodes.new.keys i ≡ Some node) }
    ensures puts { OnOk result (Puts nodes.old.keys node nodes.new.keys) }
    ensures unchanged { OnErr result (nodes.new.keys ≡ nodes.old.keys) }
    ensures once { StandsOnce nodes.new.keys }
{
    let (index, _) = nodes.insert_full(node)?;
    Ok(index)
}

impl Terms {
    /// The empty store, which takes no memory.
    pub fn new(alloc: Global) -> Terms
        ensures nodes { result.nodes ≡ [] }
        ensures vars { result.vars ≡ 0 }
    {
        Terms {
            nodes: IndexSet::new(alloc),
            vars: 0,
        }
    }

    /// Adds the next variable and answers its node, which is a new one.
    pub fn fresh(&mut self) -> Result<NodeId, AllocError>
        ensures nodes { OnOk result (self.new.nodes ≡ self.old.nodes ++ Node.Var self.old.vars ∷ []) }
        ensures vars { OnOk result (self.new.vars ≡ self.old.vars + 1) }
        ensures number { IfOk result (λ id. id.0 ≡ size self.old) }
        ensures unchanged { OnErr result (self.new ≡ self.old) }

        ensures grows { Grows self.old self.new }
        ensures within { IfOk result (λ id. id.0 < size self.new) }
        ensures value { Gives self.new result (λ w id. at w id ≡ w.variable self.old.vars) }
    {
        let number = self.nodes.len();
        let var = self.vars;
        if var >= MOST_VARS {
            return Err(AllocError);
        }
        put(&mut self.nodes, Node::Var(var))?;
        self.vars = var + 1;
        Ok(NodeId(number as u64))
    }

    /// Takes the next variables, so many of them, without nodes: each has its node where it is first added. Where there
    /// would be more than 2^63, it answers want of memory.
    pub fn reserve(&mut self, count: u64) -> Result<(), AllocError>
        ensures nodes { self.new.nodes ≡ self.old.nodes }
        ensures vars { OnOk result (self.new.vars ≡ self.old.vars + count) }
        ensures unchanged { OnErr result (self.new ≡ self.old) }

        ensures grows { Grows self.old self.new }
    {
        if count > MOST_VARS - self.vars {
            return Err(AllocError);
        }
        self.vars += count;
        Ok(())
    }

    /// Answers the number of the node that is equal to this one. Where there is none, the node is put last.
    pub fn add(&mut self, node: Node) -> Result<NodeId, AllocError>
        requires { IsBelow (size self.old) self.old.vars node }
        ensures stands { IfOk result (λ id. Stands self.new id.0 node) }
        ensures puts { OnOk result (Puts self.old.nodes node self.new.nodes) }
        ensures unchanged { OnErr result (self.new ≡ self.old) }

        ensures builds { Builds self.old self.new }
        ensures within { IfOk result (λ id. id.0 < size self.new) }
        ensures value { Gives self.new result (λ w id. at w id ≡ gate w node) }
    {
        let index = put(&mut self.nodes, node)?;
        Ok(NodeId(index as u64))
    }

    /// The node of a number.
    pub fn get(&self, id: NodeId) -> Node
        requires { id.0 < size self.now }
        ensures node { Stands self.now id.0 result }
        ensures below { IsBelow id.0 self.now.vars result }
        ensures value { (w : Reading) → Reads w self.now → at w id ≡ gate w result }
    {
        self.nodes.as_slice()[id.0 as usize]
    }

    /// How many nodes there are. No node stands twice among them.
    pub fn len(&self) -> u64
        ensures size { result ≡ size self.now }
        ensures once { StandsOnce self.now.nodes }
        ensures small { result < 2 ^ 63 }
    {
        self.nodes.len() as u64
    }

    /// Whether there is no node.
    pub fn is_empty(&self) -> bool
        ensures { IsTrue result ↔ (size self.now ≡ 0) }
    {
        self.len() == 0
    }

    /// How many variables there are.
    pub fn vars(&self) -> u64
        ensures vars { result ≡ self.now.vars }
        ensures few { result ≤ 2 ^ 63 }
    {
        self.vars
    }

    /// A law, with no effect: each node stands once, above its operands.
    pub fn stands_in_order(&self)
        ensures sound { IsSound self.now.nodes self.now.vars }
        ensures once { StandsOnce self.now.nodes }
    {
        let _ = &self.nodes;
        self.len();
    }

    /// A law, with no effect: each valuation gives a reading of the store, by the values of the nodes under it.
    pub fn valuation_reads(&self)
        ensures { (valuation : List Bool) → Reads (reading_of self.now.nodes valuation) self.now }
    {
        let _ = &self.nodes;
    }

    /// A law, with no effect: a reading of the store gives each node its value under a valuation with the same variables.
    pub fn reading_has_values(&self)
        ensures { (w : Reading) (valuation : List Bool) → Reads w self.now → Agrees w valuation self.now.vars
            → (i : ℕ) → i < size self.now → w.node i ≡ value_of self.now.nodes valuation i }
    {
        let _ = &self.nodes;
    }
}
