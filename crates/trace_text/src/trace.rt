//! What a trace is: the heap that it runs on, and what each lane does there.

ghost use Rattle.std.specs.Prelude.{◌≡◌, ◌↔◌, ◌++◌, ◌∷◌, ◌+◌, ◌≤◌, List, [], length, map, IfOk, IsTrue, OnOk, OnErr};
ghost use Rattle.trace_text.specs.Canonical.{BeginsWithOps, last_with_all};
ghost use Rattle.trace_text.specs.Operations.{AreOf, kinds_in, made_in};
ghost use Rattle.trace_text.specs.Said.{last_with};
ghost use Rattle.trace_text.specs.Text.{op_line};
ghost use Rattle.trace_text.specs.Traces.{heap_word};
ghost use Rattle.trace_text.specs.declared.limits.TheConstants.{MAX_INPUT};
ghost use Rattle.trace_text.specs.declared.trace.Op.{Op};

use crate::canonical::read_ops;
use crate::kinds::{Kind, Kinds, Numbers};
use crate::text::Text;
use heap_geometry::geometry::Geometry;
use std::alloc::{AllocError, Global};
use std::marker::Model;

/// A trace. Contracts see it as plain data: a lane is a list of operations.
#[derive(Drop)]
pub struct Trace {
    /// The version of the trace language that the text is of.
    pub version: Version,
    /// The heap that the trace runs on. Each lane is a caller, and there is one caller where there
    /// is no lane.
    pub heap: Geometry,
    /// Whether the text names the heap's turn limit.
    pub named_limit: bool,
    /// What each lane does.
    pub lanes: Lanes,
    /// The order in which lanes take their steps, where the trace gives one.
    pub orders: Orders,
}

/// A version of the trace language. A later one has all that an earlier one has.
#[derive(Clone, Copy, Debug, PartialEq, Eq)]
pub enum Version {
    /// Has each operation but `Op::Resize`.
    One,
    /// Has each operation.
    Two,
}

impl Version {
    /// The word that begins the heap line.
    pub fn heap_word(self) -> &'static str
        ensures { result.now ≡ heap_word self }
    {
        match self {
            Version::One => "heap",
            Version::Two => "heap2",
        }
    }
}

/// What a lane does next. `r` is one of its registers, below `REGISTERS`.
#[derive(Clone, Copy, PartialEq, Eq)]
pub enum Op {
    /// Allocates `need` words into the register, and fills them with `v`.
    Alloc { r: u16, need: u32, v: u64 },
    /// Frees the register's block.
    Free { r: u16 },
    /// Fills the register's block with `v`.
    Fill { r: u16, v: u64 },
    /// Sums the words of the register's block.
    Check { r: u16 },
    /// Puts the register's block on a shelf.
    Put { r: u16, shelf: u8 },
    /// Takes a block from a shelf into the register.
    Take { r: u16, shelf: u8 },
    /// Resizes the register's block to `need` words: what it holds stays as far as there is room, and
    /// the words behind that are 0. An operation of `Version::Two` alone.
    Resize { r: u16, need: u32 },
}

impl Op {
    /// Writes the line of the operation.
    #[tactic(auto, unfolding(crate::specs::Text::op_fields))]
    pub(crate) fn write(self, text: &mut Text) -> Result<(), AllocError>
        ensures { OnOk result (text.new ≡ text.old ++ op_line self) }
    {
        match self {
            Op::Alloc { r, need, v } => text.line_with_three("a", u64::from(r), u64::from(need), v),
            Op::Free { r } => text.line_with("f", u64::from(r)),
            Op::Fill { r, v } => text.line_with_two("w", u64::from(r), v),
            Op::Check { r } => text.line_with("c", u64::from(r)),
            Op::Put { r, shelf } => text.line_with_two("p", u64::from(r), u64::from(shelf)),
            Op::Take { r, shelf } => text.line_with_two("t", u64::from(r), u64::from(shelf)),
            Op::Resize { r, need } => text.line_with_two("r", u64::from(r), u64::from(need)),
        }
    }

    /// What the numbers behind a letter say, if an operation of this version has it.
    #[inline(always)]
    #[tactic(auto, unfolding(crate::specs::Operations::maker_in))]
    pub(crate) fn kinds(version: Version, letter: u8) -> Option<Kinds>
        ensures { result ≡ kinds_in version letter }
    {
        match letter {
            b'a' => Some(Kinds::Three(Kind::Register, Kind::Need, Kind::Value)),
            b'f' => Some(Kinds::One(Kind::Register)),
            b'w' => Some(Kinds::Two(Kind::Register, Kind::Value)),
            b'c' => Some(Kinds::One(Kind::Register)),
            b'p' => Some(Kinds::Two(Kind::Register, Kind::Shelf)),
            b't' => Some(Kinds::Two(Kind::Register, Kind::Shelf)),
            b'r' if version == Version::Two => Some(Kinds::Two(Kind::Register, Kind::Need)),
            _ => None,
        }
    }

    /// The operation with a letter and the numbers behind it.
    #[inline(always)]
    #[tactic(auto, unfolding(crate::specs::Operations::maker_in))]
    pub(crate) fn made(letter: u8, n: Numbers) -> Option<Op>
        requires { AreOf letter n }
        ensures { result ≡ made_in letter n }
    {
        match letter {
            b'a' => Some(Op::Alloc {
                r: n.first as u16,
                need: n.second as u32,
                v: n.third,
            }),
            b'f' => Some(Op::Free { r: n.first as u16 }),
            b'w' => Some(Op::Fill {
                r: n.first as u16,
                v: n.second,
            }),
            b'c' => Some(Op::Check { r: n.first as u16 }),
            b'p' => Some(Op::Put {
                r: n.first as u16,
                shelf: n.second as u8,
            }),
            b't' => Some(Op::Take {
                r: n.first as u16,
                shelf: n.second as u8,
            }),
            b'r' => Some(Op::Resize {
                r: n.first as u16,
                need: n.second as u32,
            }),
            _ => None,
        }
    }
}

/// A run of steps of one lane.
#[derive(Clone, Copy, PartialEq, Eq)]
pub struct OrderRun {
    /// The lane that takes the steps.
    pub lane: u8,
    /// How many steps, from 1 on.
    pub steps: u32,
}

/// The lanes of a trace, each with its operations in their order.
#[derive(Drop)]
pub struct Lanes {
    lanes: Vec<Vec<Op>>,
}

/// One operation more in the last of some lists.
fn push_onto_last(lanes: &mut Vec<Vec<Op>>, op: Op) -> Result<(), AllocError>
    ensures { OnOk result (map (λ ops. ops.items) lanes.new.items
        ≡ last_with op (map (λ ops. ops.items) lanes.old.items)) }
{
    if let Some(last) = lanes.last_mut() {
        last.push(op)?;
    }
    Ok(())
}

/// Reads operations into the last of some lists, as `read_ops` does.
fn read_onto_last<'a>(
    lanes: &mut Vec<Vec<Op>>,
    version: Version,
    text: &'a [u8],
) -> Result<(u32, &'a [u8]), AllocError>
    requires { length text.now ≤ MAX_INPUT }
    ensures ops { IfOk result (λ p. (more : List Op) × (map (λ ops. ops.items) lanes.new.items ≡ last_with_all more (map (λ ops. ops.items) lanes.old.items)) × (length more ≡ p.0) × BeginsWithOps version text.now more p.1.now) }
    ensures shorter { IfOk result (λ p. p.0 + length p.1.now ≤ length text.now) }
{
    let Some(last) = lanes.last_mut() else {
        return Ok((0, text));
    };
    let (ops, rest) = read_ops(version, last, text)?;
    Ok((ops, rest))
}

impl Model for Lanes {
    ghost use Rattle.std.specs.Prelude.{List, map};
    ghost use Rattle.trace_text.specs.declared.trace.Op.{Op};

    ghost Value = { List (List Op) };

    ghost view = { λ a. map (λ ops. ops.items) a.lanes.items };
}

impl Lanes {
    /// The lanes, which take no further memory.
    pub fn new(lanes: Vec<Vec<Op>>) -> Self
        ensures { result ≡ map (λ ops. ops.items) lanes.items }
    {
        Lanes { lanes }
    }

    /// The lanes, to be looked at.
    pub fn as_slice(&self) -> &[Vec<Op>]
        ensures { map (λ ops. ops.items) result.now ≡ self.now }
    {
        self.lanes.as_slice()
    }

    /// How many lanes there are.
    pub fn len(&self) -> usize
        ensures { result ≡ length self.now }
    {
        self.lanes.len()
    }

    /// Whether there is no lane.
    pub fn is_empty(&self) -> bool
        ensures { IsTrue result ↔ (self.now ≡ []) }
    {
        self.lanes.is_empty()
    }

    /// One lane more, with no operation yet. Where memory is not found, the lanes may be others.
    pub fn push_lane(&mut self, alloc: Global) -> Result<(), AllocError>
        ensures { OnOk result (self.new ≡ self.old ++ [] ∷ []) }
    {
        self.lanes.push(Vec::new(alloc))?;
        Ok(())
    }

    /// One operation more in the last lane. Where memory is not found, the lanes may be others.
    pub fn push_op(&mut self, op: Op) -> Result<(), AllocError>
        ensures { OnOk result (self.new ≡ last_with op self.old) }
    {
        push_onto_last(&mut self.lanes, op)
    }

    /// Reads operations into the last lane, as long as their lines are as printed: how many there
    /// are, and what is left behind them. Where memory is not found, the lanes may be others.
    pub(crate) fn read_ops<'a>(
        &mut self,
        version: Version,
        text: &'a [u8],
    ) -> Result<(u32, &'a [u8]), AllocError>
        requires { length text.now ≤ MAX_INPUT }
        ensures ops { IfOk result (λ p. (more : List Op) × (self.new ≡ last_with_all more self.old) × (length more ≡ p.0) × BeginsWithOps version text.now more p.1.now) }
        ensures shorter { IfOk result (λ p. p.0 + length p.1.now ≤ length text.now) }
    {
        read_onto_last(&mut self.lanes, version, text)
    }

    /// The lanes, given back.
    pub fn into_vec(self) -> Vec<Vec<Op>>
        ensures { map (λ ops. ops.items) result.items ≡ self }
    {
        let Lanes { lanes } = self;
        lanes
    }
}

/// The order runs of a trace.
#[derive(Drop)]
pub struct Orders {
    runs: Vec<OrderRun>,
}

impl Model for Orders {
    ghost use Rattle.std.specs.Prelude.{List};
    ghost use Rattle.trace_text.specs.declared.trace.OrderRun.{OrderRun};

    ghost Value = { List OrderRun };

    ghost view = { λ a. a.runs.items };
}

impl Orders {
    /// The order runs, which take no further memory.
    pub fn new(runs: Vec<OrderRun>) -> Self
        ensures { result ≡ runs.items }
    {
        Orders { runs }
    }

    /// The order runs, to be looked at.
    pub fn as_slice(&self) -> &[OrderRun]
        ensures { result.now ≡ self.now }
    {
        self.runs.as_slice()
    }

    /// Whether there is no order run.
    pub fn is_empty(&self) -> bool
        ensures { IsTrue result ↔ (self.now ≡ []) }
    {
        self.runs.is_empty()
    }

    /// One order run more. Where memory is not found, the runs are as before.
    pub fn push(&mut self, run: OrderRun) -> Result<(), AllocError>
        ensures ok { OnOk result (self.new ≡ self.old ++ run ∷ []) }
        ensures err { OnErr result (self.new ≡ self.old) }
    {
        self.runs.push(run)?;
        Ok(())
    }

    /// The order runs, given back.
    pub fn into_vec(self) -> Vec<OrderRun>
        ensures { result.items ≡ self }
    {
        let Orders { runs } = self;
        runs
    }
}
