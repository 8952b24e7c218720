//! A request that is served by one call of a machine after another.

ghost use Rattle.std.specs.Prelude.{ℕ, ◌≡◌, ◌∷◌, []};
ghost use Rattle.heap_geometry.specs.declared.need.Need.{Need};
ghost use Rattle.errand_steps.specs.Calls.{alloc, put, read, take};
ghost use Rattle.errand_steps.specs.Told.{ended_as};
ghost use Rattle.sound_laws.specs.events.Made.{answered};
ghost use Rattle.lane_engine.specs.Begins.{call_of};
ghost use Rattle.trace_lane.specs.declared.request.Request.TheVariants as request;
ghost use Rattle.trace_lane.specs.declared.work.Work.TheVariants as work;
ghost use Rattle.trace_lane.specs.Requests.{Serves, answer_held, held_of, request_held};
ghost use Rattle.trace_lane.specs.Works.{AnswersCall, HasBegunWork, WorksTo, behind, call_in, work_held, word_in, worked_held};

use crate::request::{Answer, Request};
use errand_steps::told::Ending;
use lane_engine::begins::NextCall;
use step_machine::token::Token;

/// A request, and the call of it that is under way.
#[derive(Drop)]
pub enum Work<B> {
    /// The allocation is under way.
    Allocating {
        need: u32,
    },
    /// The free is under way.
    Freeing(B),
    /// The words before `next` are filled, and the write of that one is under way.
    Filling {
        block: B,
        from: u64,
        next: u32,
    },
    /// The words before `next` add up to `total`, modulo 2^64, and the read of that one is under way.
    Summing {
        block: B,
        next: u32,
        total: u64,
    },
    /// The words before `next` are copied, and the read of that one is under way.
    Reading {
        from: B,
        to: B,
        next: u32,
    },
    /// The words before `next` are copied, and the write of that one is under way.
    Writing {
        from: B,
        to: B,
        next: u32,
        word: u64,
    },
    /// The put is under way.
    Putting {
        block: B,
        shelf: u8,
    },
    /// The take is under way.
    Taking {
        shelf: u8,
    },
}

/// How a request goes on.
#[derive(Drop)]
pub enum Worked<B> {
    /// Its next call is due.
    Going(Work<B>),
    /// It is answered.
    Answered(Answer<B>),
}

/// The word behind this one, if the block has so many words.
fn word_behind(next: u32, words: u32) -> Option<u32>
    ensures { result ≡ behind next words }
{
    if words > 0 && next < words - 1 {
        Some(next + 1)
    } else {
        None
    }
}

impl<B: Token + Drop> Work<B> {
    /// A request before its first call.
    pub(crate) fn new(request: Request<B>) -> Work<B>
        ensures { HasBegunWork (request_held B.place_of B.need_of request) (work_held B.place_of B.need_of result) }
    {
        match request {
            Request::Allocate { need } => Work::Allocating { need },
            Request::Free(block) => Work::Freeing(block),
            Request::Fill { block, from } => Work::Filling {
                block,
                from,
                next: 0,
            },
            Request::Sum(block) => Work::Summing {
                block,
                next: 0,
                total: 0,
            },
            Request::Copy { from, to } => Work::Reading { from, to, next: 0 },
            Request::Put { block, shelf } => Work::Putting { block, shelf },
            Request::Take { shelf } => Work::Taking { shelf },
        }
    }

    /// The call that is under way, or due.
    pub(crate) fn call(&self) -> NextCall
        ensures { call_of result ≡ call_in (work_held B.place_of B.need_of self.now) }
    {
        match self {
            Work::Allocating { need } => NextCall::Alloc { need: *need },
            Work::Freeing(block) => NextCall::Free {
                place: block.place(),
                need: block.need(),
            },
            Work::Filling { block, from, next } => NextCall::Write {
                place: block.place(),
                need: block.need(),
                i: *next,
                value: from.wrapping_add(u64::from(*next)),
            },
            Work::Summing { block, next, .. } => read_of(block, *next),
            Work::Reading { from, next, .. } => read_of(from, *next),
            Work::Writing { to, next, word, .. } => NextCall::Write {
                place: to.place(),
                need: to.need(),
                i: *next,
                value: *word,
            },
            Work::Putting { block, shelf } => NextCall::Put {
                place: block.place(),
                need: block.need(),
                shelf: *shelf,
            },
            Work::Taking { shelf } => NextCall::Take { shelf: *shelf },
        }
    }

    /// Goes on by how the call under way has ended. A take that missed the shelf's block is tried again.
    pub(crate) fn answer(self, ended: Ending<B>) -> Worked<B>
        requires answers { AnswersCall B.place_of B.need_of (call_in (work_held B.place_of B.need_of self)) ended }
        ensures worked { WorksTo (work_held B.place_of B.need_of self) (ended_as B.place_of B.need_of ended)
            (worked_held B.place_of B.need_of result) }
    {
        match self {
            Work::Allocating { .. } => Worked::Answered(allocated(ended)),
            Work::Freeing(_) => Worked::Answered(Answer::Freed),
            Work::Filling { block, from, next } => match word_behind(next, block.words()) {
                Some(next) => Worked::Going(Work::Filling { block, from, next }),
                None => Worked::Answered(Answer::Filled(block)),
            },
            Work::Summing { block, next, total } => {
                let total = total.wrapping_add(word_of(&ended));
                match word_behind(next, block.words()) {
                    Some(next) => Worked::Going(Work::Summing { block, next, total }),
                    None => Worked::Answered(Answer::Summed { block, total }),
                }
            }
            Work::Reading { from, to, next } => {
                let word = word_of(&ended);
                Worked::Going(Work::Writing {
                    from,
                    to,
                    next,
                    word,
                })
            }
            Work::Writing { from, to, next, .. } => {
                let many = from.words();
                match word_behind(next, to.words()) {
                    Some(next) if next < many => Worked::Going(Work::Reading { from, to, next }),
                    Some(next) => Worked::Going(Work::Writing {
                        from,
                        to,
                        next,
                        word: 0,
                    }),
                    None => Worked::Answered(Answer::Copied { from, to }),
                }
            }
            Work::Putting { .. } => Worked::Answered(laid(ended)),
            Work::Taking { shelf } => taken(shelf, ended),
        }
    }
}

/// The call of a request to read this word of a block.
fn read_of<B: Token>(block: &B, i: u32) -> NextCall
    ensures { call_of result ≡ read (B.place_of block.now) (B.need_of block.now) i }
{
    NextCall::Read {
        place: block.place(),
        need: block.need(),
        i,
    }
}

/// The word that was read.
fn word_of<B>(ended: &Ending<B>) -> u64
    ensures { result ≡ word_in ended.now }
{
    match ended {
        Ending::Word(word) => *word,
        _ => 0,
    }
}

/// What an allocation came to.
fn allocated<B: Token + Drop>(ended: Ending<B>) -> Answer<B>
    requires answers { (need : ℕ) × AnswersCall B.place_of B.need_of (alloc need) ended }
    ensures served { (need : ℕ) → AnswersCall B.place_of B.need_of (alloc need) ended
        → Serves (request.Allocate need) (answer_held B.place_of B.need_of result) (answered (alloc need) (ended_as B.place_of B.need_of ended) ∷ []) }
{
    match ended {
        Ending::Given(block) => Answer::Given(block),
        Ending::Refused => Answer::Refused,
        Ending::Spent => Answer::Spent,
        _ => unreachable!(),
    }
}

/// What a put came to.
fn laid<B: Token + Drop>(ended: Ending<B>) -> Answer<B>
    requires answers { (place : ℕ) × (need : Need) × (shelf : ℕ) × AnswersCall B.place_of B.need_of (put place need shelf) ended }
    ensures served { (place : ℕ) (need : Need) (shelf : ℕ) → AnswersCall B.place_of B.need_of (put place need shelf) ended
        → Serves (request.Put (held_of place need) shelf) (answer_held B.place_of B.need_of result)
        (answered (put place need shelf) (ended_as B.place_of B.need_of ended) ∷ []) }
{
    match ended {
        Ending::Put => Answer::Put,
        Ending::Full { block, .. } => Answer::Full(block),
        _ => unreachable!(),
    }
}

/// What a take came to, or its next try.
fn taken<B: Token + Drop>(shelf: u8, ended: Ending<B>) -> Worked<B>
    requires answers { AnswersCall B.place_of B.need_of (take shelf) ended }
    ensures worked { WorksTo (work.Taking shelf) (ended_as B.place_of B.need_of ended) (worked_held B.place_of B.need_of result) }
{
    match ended {
        Ending::Got(block) => Worked::Answered(Answer::Got(block)),
        Ending::Empty => Worked::Answered(Answer::Empty),
        Ending::Missed { .. } => Worked::Going(Work::Taking { shelf }),
        _ => unreachable!(),
    }
}
