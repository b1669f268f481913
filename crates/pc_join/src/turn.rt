//! Two ascending lists taken as one.

ghost use Rattle.std.specs.Prelude.{◌≡◌, [], MatchOption};
ghost use Rattle.pc_join.specs.Inner.Turns.{IsTurn};

/// The lower of the first entries of two lists, and what is left of both.
#[derive(Clone, Copy)]
pub struct Turn<'a, X> {
    pub entry: (u32, X),
    pub first: &'a [(u32, X)],
    pub other: &'a [(u32, X)],
}

/// Takes the entry with the lower number from the front of one of the lists; none where both are empty.
pub fn next_turn<'a, X: Copy>(first: &'a [(u32, X)], other: &'a [(u32, X)]) -> Option<Turn<'a, X>>
    ensures { MatchOption result ((first.now ≡ [])
        × (other.now ≡ [])) (λ turn. IsTurn first.now other.now turn.entry turn.first.now turn.other.now) }
{
    let Some((mine, first_left)) = first.split_first() else {
        return match other.split_first() {
            Some((entry, other_left)) => Some(Turn {
                entry: *entry,
                first,
                other: other_left,
            }),
            None => None,
        };
    };
    match other.split_first() {
        Some((theirs, other_left)) if theirs.0 < mine.0 => Some(Turn {
            entry: *theirs,
            first,
            other: other_left,
        }),
        _ => Some(Turn {
            entry: *mine,
            first: first_left,
            other,
        }),
    }
}
