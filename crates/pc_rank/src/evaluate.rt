//! What an expression gives of a thread.

ghost use Rattle.std.specs.Prelude.{◌≡◌, ◌≤◌, length};
ghost use Rattle.pc_rank.specs.Inner.Ends.{AtExpression, AtTest, AtTwo};
ghost use Rattle.pc_rank.specs.Meaning.{holds_of, rank_by};

use crate::code::Code;
use crate::facts::Facts;

/// The rank by the expression at the end, and the codes in front of it.
#[cycle(evaluate)]
pub(crate) fn rank_of<'a>(codes: &'a [Code], facts: &Facts) -> (Option<u64>, &'a [Code])
    ensures shorter { length result.1.now ≤ length codes.now }
    ensures rank { AtExpression codes.now (λ front a. (result.0 ≡ rank_by a facts.now) × (result.1.now ≡ front)) }
{
    let [front @ .., code] = codes else {
        return (None, codes);
    };
    match code {
        Code::Number(number) => (Some(*number), front),
        Code::Given(fact) => (Some(facts.get(*fact)), front),
        Code::Infix(operator) => {
            let (first, second, rest) = ranks_of(front, facts);
            (operator.apply_to(first, second), rest)
        }
        Code::Call(extreme) => {
            let (first, second, rest) = ranks_of(front, facts);
            (extreme.apply_to(first, second), rest)
        }
        Code::Choice => {
            let (first, second, rest) = ranks_of(front, facts);
            let (holds, rest) = holds(rest, facts);
            (if holds { first } else { second }, rest)
        }
        _ => (None, front),
    }
}

/// The ranks by the two expressions at the end, and the codes in front of them.
#[cycle(evaluate)]
fn ranks_of<'a>(codes: &'a [Code], facts: &Facts) -> (Option<u64>, Option<u64>, &'a [Code])
    ensures shorter { length result.2.now ≤ length codes.now }
    ensures ranks { AtTwo codes.now (λ front a b.
        (result.0 ≡ rank_by a facts.now) × (result.1 ≡ rank_by b facts.now) × (result.2.now ≡ front)) }
{
    let (second, rest) = rank_of(codes, facts);
    let (first, rest) = rank_of(rest, facts);
    (first, second, rest)
}

/// Whether the test at the end holds, and the codes in front of it.
#[cycle(evaluate)]
fn holds<'a>(codes: &'a [Code], facts: &Facts) -> (bool, &'a [Code])
    ensures shorter { length result.1.now ≤ length codes.now }
    ensures holds { AtTest codes.now (λ front a. (result.0 ≡ holds_of a facts.now) × (result.1.now ≡ front)) }
{
    let [front @ .., code] = codes else {
        return (false, codes);
    };
    match code {
        Code::Compare(comparison) => {
            let (first, second, rest) = ranks_of(front, facts);
            (comparison.holds_of(first, second), rest)
        }
        Code::Join(joiner) => {
            let (second, rest) = holds(front, facts);
            let (first, rest) = holds(rest, facts);
            (joiner.join(first, second), rest)
        }
        Code::Negate => {
            let (first, rest) = holds(front, facts);
            (!first, rest)
        }
        _ => (false, front),
    }
}
