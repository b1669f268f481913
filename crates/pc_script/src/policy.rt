//! Policies, as a line of a script names them: by one text, whose words have one space between each two.

ghost use Rattle.std.specs.Prelude.{◌≡◌, ◌∷◌, ◌<◌, codes, length, IfErr, IfOk, MatchOption};
ghost use Rattle.std.specs.Bool.{MatchBool};
ghost use Rattle.pc_policy.specs.Names.{IsPolicy};
ghost use Rattle.pc_policy.specs.declared.named.PolicyName.{PolicyName};
ghost use Rattle.pc_policy.specs.declared.named.TheConstants.{LONGEST_POLICY};
ghost use Rattle.pc_script.specs.Grammar.{Spells, spaced};
ghost use Rattle.pc_script.specs.Inner.Taking.{words_left};

use crate::command::Command;
use crate::grammar::Verb;
use crate::trouble::{Trouble, Wanted, trouble_with_last};
use crate::words::Words;
use arrayvec::ArrayVec;
use pc_policy::{LONGEST_POLICY, OrderFault, OrderName, PolicyName};
use pc_rank::RankFault;

/// The text of a policy.
type PolicyText = ArrayVec<u8, LONGEST_POLICY>;

/// The words that are left, with a space between each two; none, where that is longer than the text of any policy.
fn text_left(words: &mut Words<'_>) -> Option<PolicyText>
    ensures { MatchOption result (LONGEST_POLICY < length (spaced (words_left words.old)))
        (λ text. text.items ≡ spaced (words_left words.old)) }
{
    let mut text = PolicyText::new();
    let Some(first) = words.next() else {
        return Some(text);
    };
    if text.try_extend_from_slice(first).is_err() {
        return None;
    }
    while let Some(word) = words.next() {
        if text.try_push(b' ').is_err() {
            return None;
        }
        if text.try_extend_from_slice(word).is_err() {
            return None;
        }
    }
    Some(text)
}

/// The policy whose text the words are that are left.
fn policy_left(words: &mut Words<'_>) -> Result<PolicyName, OrderFault>
    ensures ok { IfOk result (λ policy. IsPolicy (spaced (words_left words.old)) policy) }
    ensures err { IfErr result (λ fault. (any : PolicyName) → IsPolicy (spaced (words_left words.old)) any → ⊥) }
{
    match text_left(words) {
        Some(text) => PolicyName::read(text.as_slice()),
        None => Err(OrderFault::Rank(RankFault::TooLong)),
    }
}

/// Puts the command for the policy whose text the words are that are left into the place. Answers whether there is one.
pub(crate) fn read_policy(words: &mut Words<'_>, place: &mut Command) -> bool
    ensures { MatchBool result (Spells (codes "policy" ∷ words_left words.old) place.new)
        ((any : PolicyName) → IsPolicy (spaced (words_left words.old)) any → ⊥) }
{
    match policy_left(words) {
        Ok(policy) => {
            *place = Command::Policy(policy);
            true
        }
        Err(_) => false,
    }
}

/// The first trouble with the words behind `policy`: within the expression where the first is `rank`, or with a word.
pub(crate) fn policy_trouble<'a>(words: &mut Words<'a>) -> Option<Trouble<'a>> {
    let verb = Verb::Policy;
    let wanted = Wanted::Order;
    let policy = policy_left(&mut words.again());
    let Some(word) = words.next() else {
        return Some(Trouble::Missing {
            verb,
            place: 2,
            wanted,
        });
    };
    if let (b"rank", Err(OrderFault::Rank(fault))) = (word, policy) {
        return Some(Trouble::Rank { fault });
    }
    match OrderName::named(word) {
        Some(_) => trouble_with_last(verb, words, 3, b"exact", Wanted::Exactness),
        None => Some(Trouble::Wrong {
            verb,
            place: 2,
            word,
            wanted,
        }),
    }
}
