//! Where parts of expressions begin.

ghost use Rattle.std.specs.Prelude.{◌≡◌, ◌≤◌, length};
ghost use Rattle.pc_rank.specs.Inner.Ends.{AtExpression, AtTest};

use crate::code::Code;

/// The codes in front of the expression or the test at the end.
#[cycle(parts)]
pub(crate) fn before(codes: &[Code]) -> &[Code]
    ensures shorter { length result.now ≤ length codes.now }
    ensures expression { AtExpression codes.now (λ front a. result.now ≡ front) }
    ensures test { AtTest codes.now (λ front a. result.now ≡ front) }
{
    let [front @ .., code] = codes else {
        return codes;
    };
    match code {
        Code::Number(_) | Code::Given(_) | Code::NoRank => front,
        Code::Negate => before(front),
        Code::Infix(_) | Code::Call(_) | Code::Compare(_) | Code::Join(_) => before(before(front)),
        Code::Choice => before(before(before(front))),
    }
}
