//! Counting the outcomes of lanes.

ghost use Rattle.std.specs.Prelude.{◌≡◌, ◌≤◌, ◌*◌, ◌^◌, count_by, length, map};
ghost use Rattle.std.specs.List.{sum_by};
ghost use Rattle.trace_text.specs.declared.limits.TheConstants.{MAX_LANES};
ghost use Rattle.command_line.specs.Tallies.{AreFew, all_of, given_words, is_freed, is_given, is_refused, is_spent, is_sum, sum_of, tally_of};

use lane_outcomes::outcome::Outcome;
use trace_text::trace::Op;

/// How many outcomes of each kind some lanes had, and the usable words that they were given.
#[derive(Clone, Copy)]
pub struct OutcomeTally {
    pub given: u128,
    pub words: u128,
    pub refused: u128,
    pub spent: u128,
    pub freed: u128,
    pub summed: u128,
}

/// No outcomes.
const NOTHING: OutcomeTally = OutcomeTally {
    given: 0,
    words: 0,
    refused: 0,
    spent: 0,
    freed: 0,
    summed: 0,
};

impl OutcomeTally {
    /// The outcomes of this and of another tally.
    fn with(self, other: OutcomeTally) -> OutcomeTally
        requires own { AreFew (2 ^ 126) self }
        requires more { AreFew (2 ^ 126) other }
        ensures { result ≡ sum_of self other }
    {
        OutcomeTally {
            given: self.given + other.given,
            words: self.words + other.words,
            refused: self.refused + other.refused,
            spent: self.spent + other.spent,
            freed: self.freed + other.freed,
            summed: self.summed + other.summed,
        }
    }
}

fn given(outcomes: &[Outcome]) -> usize
    ensures { result ≡ count_by is_given outcomes.now }
{
    outcomes
        .iter()
        .filter(|outcome| matches!(outcome, Outcome::Given { .. }))
        .count()
}

fn refused(outcomes: &[Outcome]) -> usize
    ensures { result ≡ count_by is_refused outcomes.now }
{
    outcomes
        .iter()
        .filter(|outcome| matches!(outcome, Outcome::Refused))
        .count()
}

fn spent(outcomes: &[Outcome]) -> usize
    ensures { result ≡ count_by is_spent outcomes.now }
{
    outcomes
        .iter()
        .filter(|outcome| matches!(outcome, Outcome::Spent))
        .count()
}

fn freed(outcomes: &[Outcome]) -> usize
    ensures { result ≡ count_by is_freed outcomes.now }
{
    outcomes
        .iter()
        .filter(|outcome| matches!(outcome, Outcome::Freed))
        .count()
}

fn summed(outcomes: &[Outcome]) -> usize
    ensures { result ≡ count_by is_sum outcomes.now }
{
    outcomes
        .iter()
        .filter(|outcome| matches!(outcome, Outcome::Sum(_)))
        .count()
}

/// The usable words of the block that was given, where one was.
fn given_words(outcome: Outcome) -> u32
    ensures { result ≡ given_words outcome }
{
    match outcome {
        Outcome::Given { words, place: _ } => words,
        _ => 0,
    }
}

fn words(outcomes: &[Outcome]) -> u128
    ensures value { result ≡ sum_by given_words outcomes.now }
    ensures few { result ≤ 2 ^ 32 * length outcomes.now }
{
    let mut words = 0;
    for outcome in outcomes {
        words += u128::from(given_words(*outcome));
    }
    words
}

/// The tally of one lane.
fn tally_lane(outcomes: &[Outcome]) -> OutcomeTally
    ensures value { result ≡ tally_of outcomes.now }
    ensures few { AreFew (2 ^ 96) result }
{
    OutcomeTally {
        given: given(outcomes) as u128,
        words: words(outcomes),
        refused: refused(outcomes) as u128,
        spent: spent(outcomes) as u128,
        freed: freed(outcomes) as u128,
        summed: summed(outcomes) as u128,
    }
}

/// The tally of all lanes.
pub fn tally_lanes(outcomes: &[Vec<Outcome>]) -> OutcomeTally
    requires { length outcomes.now ≤ MAX_LANES }
    ensures { result ≡ tally_of (all_of (map (λ lane. lane.items) outcomes.now)) }
{
    let mut tally = NOTHING;
    for lane in outcomes {
        tally = tally.with(tally_lane(lane));
    }
    tally
}

/// How many operations some lanes have.
pub fn operations(lanes: &[Vec<Op>]) -> u128
    requires { length lanes.now ≤ MAX_LANES }
    ensures { result ≡ length (all_of (map (λ lane. lane.items) lanes.now)) }
{
    let mut count = 0;
    for lane in lanes {
        count += lane.len() as u128;
    }
    count
}
