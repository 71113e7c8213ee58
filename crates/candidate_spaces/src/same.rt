//! Whether two spaces show the same.

ghost use Rattle.std.specs.Prelude.{◌≡◌, ◌↔◌, IsTrue};
ghost use Rattle.candidate_spaces.specs.Space.{registers_at, shown_of, candidates_in};
ghost use Rattle.candidate_spaces.specs.Same.{left_in, chosen, shown_left, IsNextCandidate};

use crate::ends::registers_of;
use ppc_semantics::Value;
use run_combinations::{Action, Combination, Event, is_same};
use thread_runs::are_same_values;

/// The candidates of combinations from one on.
#[derive(Drop)]
pub struct Candidates<'a> {
    combinations: &'a [Combination],
    /// The indices in the first combination of the next reads-from and the next coherence.
    source: usize,
    order: usize,
}

/// One candidate: a combination, the store that each load reads, and the order of the stores.
#[derive(Drop)]
pub struct Chosen<'a> {
    combination: &'a Combination,
    reads_from: &'a [u8],
    coherence: &'a [u8],
}

fn are_same_bytes(first: &[u8], second: &[u8]) -> bool
    ensures { IsTrue result ↔ (first.now ≡ second.now) }
{
    first == second
}

fn is_same_action(first: Action, second: Action) -> bool
    ensures { IsTrue result ↔ (first ≡ second) }
{
    match (first, second) {
        (
            Action::Load {
                location: one,
                value,
            },
            Action::Load {
                location: other,
                value: second_value,
            },
        ) => one == other && is_same(value, second_value),
        (
            Action::Store {
                location: one,
                value,
            },
            Action::Store {
                location: other,
                value: second_value,
            },
        ) => one == other && is_same(value, second_value),
        (Action::Fence(one), Action::Fence(other)) => one == other,
        _ => false,
    }
}

fn is_same_event(first: &Event, second: &Event) -> bool
    ensures { IsTrue result ↔ (first.now ≡ second.now) }
{
    first.thread == second.thread && is_same_action(first.action, second.action)
}

fn are_same_events(first: &[Event], second: &[Event]) -> bool
    ensures { IsTrue result ↔ (first.now ≡ second.now) }
{
    if first.len() != second.len() {
        return false;
    }
    for index in 0..first.len() {
        if !is_same_event(&first[index], &second[index]) {
            return false;
        }
    }
    true
}

/// Whether the registers at the ends of these runs are the same, thread by thread.
fn are_same_ends(
    first: &[Vec<[Value; 32]>],
    first_runs: &[usize],
    second: &[Vec<[Value; 32]>],
    second_runs: &[usize],
) -> bool
    ensures { IsTrue result
        ↔ (registers_at first.now first_runs.now ≡ registers_at second.now second_runs.now) }
{
    let threads = first.len().min(first_runs.len());
    if threads != second.len().min(second_runs.len()) {
        return false;
    }
    for thread in 0..threads {
        let one = registers_of(&first[thread], first_runs[thread]);
        let other = registers_of(&second[thread], second_runs[thread]);
        if !are_same_values(&one, &other) {
            return false;
        }
    }
    true
}

impl<'a> Candidates<'a> {
    /// All candidates of the combinations.
    pub fn new(combinations: &'a [Combination]) -> Candidates<'a>
        ensures { left_in result ≡ candidates_in combinations.now }
    {
        Candidates {
            combinations,
            source: 0,
            order: 0,
        }
    }

    /// The next candidate.
    fn next(&mut self) -> Option<Chosen<'a>>
        ensures { IsNextCandidate self.old self.new result }
    {
        while let Some(combination) = self.combinations.first() {
            if self.source < combination.reads_from.len() && self.order < combination.orders.len() {
                let chosen = Chosen {
                    combination,
                    reads_from: &combination.reads_from[self.source],
                    coherence: combination.orders.order(self.order),
                };
                self.order += 1;
                if self.order == combination.orders.len() {
                    self.order = 0;
                    self.source += 1;
                }
                return Some(chosen);
            }
            self.combinations = &self.combinations[1..];
            self.source = 0;
            self.order = 0;
        }
        None
    }
}

/// Whether two candidates show the same, where the registers hold these values at the ends of runs.
fn is_same_chosen(
    first: &Chosen,
    first_ends: &[Vec<[Value; 32]>],
    second: &Chosen,
    second_ends: &[Vec<[Value; 32]>],
) -> bool
    ensures { IsTrue result
        ↔ (shown_of first_ends.now (chosen first.now)
        ≡ shown_of second_ends.now (chosen second.now)) }
{
    let one = first.combination;
    let other = second.combination;
    are_same_bytes(first.reads_from, second.reads_from)
        && are_same_bytes(first.coherence, second.coherence)
        && are_same_events(&one.events, &other.events)
        && one.dependencies.is_same(&other.dependencies)
        && are_same_ends(first_ends, &one.runs, second_ends, &other.runs)
}

/// Whether the candidates that are left show the same, one by one.
pub fn are_same(
    mut first: Candidates,
    first_ends: &[Vec<[Value; 32]>],
    mut second: Candidates,
    second_ends: &[Vec<[Value; 32]>],
) -> bool
    ensures { IsTrue result
        ↔ (shown_left first_ends.now first.entry ≡ shown_left second_ends.now second.entry) }
{
    while let Some(one) = first.next() {
        match second.next() {
            Some(other) => {
                if !is_same_chosen(&one, first_ends, &other, second_ends) {
                    return false;
                }
            }
            None => return false,
        }
    }
    second.next().is_none()
}
