// The cases of matches.
ghost use Rattle.std.specs.Prelude.{◌≡◌};
ghost use Rattle.std.specs.List.{list_all};
ghost use Rattle.lucid_types_spec.specs.Limits.{cases_are_few as few_in};
ghost use Rattle.lucid_types_limits.specs.Cases.{few_in_choice, few_in_no};

use lucid_base::Items;
use lucid_parse_tree::{C, No, S};

/// Returns whether no match in these statements has more than 32 cases.
#[cycle(cases)]
pub fn cases_are_few(ss: &[S]) -> bool
    ensures { result ≡ list_all few_in ss.now }
{
    for s in ss {
        if !statement_is_few(s) {
            return false;
        }
    }
    true
}

#[cycle(cases)]
#[tactic(auto, using(crate::proofs::FewCases::match_is))]
fn statement_is_few(s: &S) -> bool
    ensures { result ≡ few_in s.now }
{
    match s {
        S::Match {
            test: _,
            cases,
            last,
        } => {
            if cases.len() <= 32 && blocks_are_few(cases.as_slice()) {
                match last {
                    None => true,
                    Some(last) => cases_are_few(last.as_slice()),
                }
            } else {
                false
            }
        }
        S::Cond(c) => choice_is_few(c.get()),
        _ => true,
    }
}

/// Returns the blocks of a match's cases.
#[cycle(cases)]
fn blocks_are_few(cases: &[(u64, Items<S>)]) -> bool
    ensures { result ≡ list_all (λ c. list_all few_in c.1) cases.now }
{
    for (_, block) in cases {
        if !cases_are_few(block.as_slice()) {
            return false;
        }
    }
    true
}

#[cycle(cases)]
#[tactic(auto, using(crate::proofs::FewCases::choice_is))]
fn choice_is_few(c: &C) -> bool
    ensures { result ≡ few_in_choice c.now }
{
    cases_are_few(c.yes.as_slice()) && no_is_few(&c.no)
}

#[cycle(cases)]
#[tactic(auto, using(crate::proofs::FewCases::block_is))]
fn no_is_few(no: &No) -> bool
    ensures { result ≡ few_in_no no.now }
{
    match no {
        No::Absent => true,
        No::Block(ss) => cases_are_few(ss.as_slice()),
        No::Cond(c) => choice_is_few(c.get()),
    }
}
