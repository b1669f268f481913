//! One leaf: entries by ascending names, next to each other in memory.

ghost use Rattle.std.specs.Prelude.{ℕ, ◌≡◌, ◌<◌, ◌/◌, false, Option, List, Some, None, length, drop, ltb, IsTrue, OnOk};
ghost use Rattle.std.specs.Prelude.{option_copied, IsSome, MatchOption};
ghost use Rattle.pc_join.specs.ByName.{AscendFrom, IsLeastFrom, value_at};
ghost use Rattle.pc_join.specs.Inner.Leaves.{IsLeaf, IsPlaceIn, IsSetAt, begins_with};
ghost use Rattle.pc_join.specs.Inner.Puts.{IsPieceJoined, IsPut, IsWholeAt};

use crate::join::{Join, OutOfMemory};
use crate::piece::Piece;

/// How many names a leaf is of.
pub const NAMES: u32 = 64;

/// Whether the entry at this place has the name.
pub fn stands_at<V>(entries: &[(u32, V)], place: usize, name: u32) -> bool
    ensures { result ≡ begins_with (drop place entries.now) name }
{
    match entries.get(place) {
        Some(entry) => entry.0 == name,
        None => false,
    }
}

/// Whether the name is after all that stand there, found without a search: names mostly come in their order.
fn is_after_all<V>(entries: &[(u32, V)], name: u32) -> bool
    requires { AscendFrom 0 entries.now }
    ensures { IsTrue result → IsPlaceIn entries.now name (length entries.now) }
{
    match entries.split_last() {
        Some((last, _)) => last.0 < name,
        None => true,
    }
}

/// How many of the entries have lesser names. Names mostly are dense: then each stands at the place that its bits below
/// 64 say.
pub fn place_of<V>(entries: &[(u32, V)], name: u32) -> usize
    requires { AscendFrom 0 entries.now }
    ensures { IsPlaceIn entries.now name result }
{
    let dense = (name % NAMES) as usize;
    if stands_at(entries, dense, name) {
        return dense;
    }
    if is_after_all(entries, name) {
        return entries.len();
    }
    entries.partition_point(
        |entry: &(u32, V)| -> bool
            ensures { result ≡ ltb entry.now.0 name }
        { entry.0 < name },
    )
}

/// What stands under the name.
pub fn value_of<V>(entries: &[(u32, V)], name: u32) -> Option<&V>
    requires { AscendFrom 0 entries.now }
    ensures { option_copied result ≡ value_at entries.now name }
{
    let place = place_of(entries, name);
    if stands_at(entries, place, name) {
        return Some(&entries[place].1);
    }
    None
}

/// The least name that stands there, from one on.
pub fn name_from<V>(entries: &[(u32, V)], from: u32) -> Option<u32>
    requires { AscendFrom 0 entries.now }
    ensures { MatchOption result ((name : ℕ) → IsSome (value_at entries.now name) → name < from)
        (IsLeastFrom (value_at entries.now) from) }
{
    match entries.get(place_of(entries, from)) {
        Some(entry) => Some(entry.0),
        None => None,
    }
}

/// Joins a value to the one at this place, which has the name.
fn join_at<V: Join>(
    leaf: &mut Vec<(u32, V)>,
    place: usize,
    name: u32,
    value: &V,
) -> Result<(), OutOfMemory>
    requires place { IsPlaceIn leaf.old.items name place }
    requires there { IsTrue (begins_with (drop place leaf.old.items) name) }
    ensures put { IsPut V.known V.is_of (value_at leaf.old.items) name value.now (value_at leaf.new.items) }
    ensures whole { OnOk result
        (IsWholeAt V.known (value_at leaf.old.items name) (Some value.now) (value_at leaf.new.items name)) }
    ensures leaf { (number : ℕ) → IsLeaf number leaf.old.items → IsLeaf number leaf.new.items }
    ensures there { ¬ (value_at leaf.old.items name ≡ None) }
{
    leaf[place].1.join_from(value)
}

/// Puts an entry at this place, where its name is not there yet.
fn insert_at<V: Join>(
    leaf: &mut Vec<(u32, V)>,
    place: usize,
    name: u32,
    value: V,
) -> Result<(), OutOfMemory>
    requires place { IsPlaceIn leaf.old.items name place }
    requires new { begins_with (drop place leaf.old.items) name ≡ false }
    ensures put { IsPut V.known V.is_of (value_at leaf.old.items) name value (value_at leaf.new.items) }
    ensures whole { OnOk result
        (IsWholeAt V.known (value_at leaf.old.items name) (Some value) (value_at leaf.new.items name)) }
    ensures fresh { OnOk result (IsSetAt (value_at leaf.old.items) name value (value_at leaf.new.items)) }
    ensures leaf { (number : ℕ) → number ≡ name / 64 → IsLeaf number leaf.old.items → IsLeaf number leaf.new.items }
{
    leaf.insert(place, (name, value))?;
    Ok(())
}

/// Joins a value to what stands under the name.
pub fn put_in<V: Join>(leaf: &mut Vec<(u32, V)>, name: u32, value: V) -> Result<(), OutOfMemory>
    requires { AscendFrom 0 leaf.old.items }
    ensures put { IsPut V.known V.is_of (value_at leaf.old.items) name value (value_at leaf.new.items) }
    ensures whole { OnOk result
        (IsWholeAt V.known (value_at leaf.old.items name) (Some value) (value_at leaf.new.items name)) }
    ensures fresh { value_at leaf.old.items name ≡ None
        → OnOk result (IsSetAt (value_at leaf.old.items) name value (value_at leaf.new.items)) }
    ensures leaf { (number : ℕ) → number ≡ name / 64 → IsLeaf number leaf.old.items → IsLeaf number leaf.new.items }
{
    let place = place_of(leaf.as_slice(), name);
    if stands_at(leaf.as_slice(), place, name) {
        return join_at(leaf, place, name, &value);
    }
    insert_at(leaf, place, name, value)
}

/// Joins a value, of which a copy is held where the name is new.
pub fn join_in<V: Join>(leaf: &mut Vec<(u32, V)>, name: u32, value: &V) -> Result<(), OutOfMemory>
    requires { AscendFrom 0 leaf.old.items }
    ensures put { IsPut V.known V.is_of (value_at leaf.old.items) name value.now (value_at leaf.new.items) }
    ensures whole { OnOk result
        (IsWholeAt V.known (value_at leaf.old.items name) (Some value.now) (value_at leaf.new.items name)) }
    ensures leaf { (number : ℕ) → number ≡ name / 64 → IsLeaf number leaf.old.items → IsLeaf number leaf.new.items }
{
    let place = place_of(leaf.as_slice(), name);
    if stands_at(leaf.as_slice(), place, name) {
        return join_at(leaf, place, name, value);
    }
    let copy = value.try_copy()?;
    insert_at(leaf, place, name, copy)
}

/// Joins a piece to the value at this place, which has the name.
fn join_piece_at<V: Join, P: Piece<V>>(
    leaf: &mut Vec<(u32, V)>,
    place: usize,
    name: u32,
    piece: P,
) -> Result<(), OutOfMemory>
    requires place { IsPlaceIn leaf.old.items name place }
    requires there { IsTrue (begins_with (drop place leaf.old.items) name) }
    ensures joined { IsPieceJoined V.known V.is_of (value_at leaf.old.items) name (P.stands_for piece)
        (value_at leaf.new.items) result }
    ensures leaf { (number : ℕ) → IsLeaf number leaf.old.items → IsLeaf number leaf.new.items }
{
    piece.join_to(&mut leaf[place].1)
}

/// Joins a piece to what stands under the name, where that is.
pub fn put_piece_in<V: Join, P: Piece<V>>(
    leaf: &mut Vec<(u32, V)>,
    name: u32,
    piece: P,
) -> Result<(), OutOfMemory>
    requires { AscendFrom 0 leaf.old.items }
    ensures joined { IsPieceJoined V.known V.is_of (value_at leaf.old.items) name (P.stands_for piece)
        (value_at leaf.new.items) result }
    ensures leaf { (number : ℕ) → number ≡ name / 64 → IsLeaf number leaf.old.items → IsLeaf number leaf.new.items }
{
    let place = place_of(leaf.as_slice(), name);
    if stands_at(leaf.as_slice(), place, name) {
        return join_piece_at(leaf, place, name, piece);
    }
    let value = piece.alone(*leaf.allocator());
    insert_at(leaf, place, name, value)
}
