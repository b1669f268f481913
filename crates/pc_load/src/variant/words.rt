//! Words of variants.

ghost use Rattle.std.specs.Prelude.{◌≡◌};
ghost use Rattle.std.specs.List.{list_all};
ghost use Rattle.pc_load.specs.Variants.{is_letter, is_name};

use crate::variant::{MOST_NAME, Variant};
use std::fmt::{self, Display, Formatter, Write};

/// Whether the byte may stand in a name.
fn is_letter(byte: u8) -> bool
    ensures { result ≡ is_letter byte }
{
    (97 <= byte && byte <= 122) || (48 <= byte && byte <= 57) || byte == 45 || byte == 46
}

fn are_letters(name: &[u8]) -> bool
    ensures { result ≡ list_all is_letter name.now }
{
    name.iter().all(|byte| is_letter(*byte))
}

/// Whether the bytes may be a name.
pub(crate) fn is_name(name: &[u8]) -> bool
    ensures { result ≡ is_name name.now }
{
    1 <= name.len() && name.len() <= MOST_NAME && are_letters(name)
}

/// A name as it is written.
#[derive(Clone, Copy)]
struct Title<'a>(&'a [u8]);

impl Display for Title<'_> {
    ghost use Rattle.std.specs.Prelude.{Some};
    ghost use Rattle.pc_load.specs.Variants.{name_text};

    ghost output = { λ title. Some (name_text title.0.now) };

    fn fmt<W: Write>(&self, f: &mut Formatter<W>) -> fmt::Result {
        for byte in self.0 {
            let letter = char::from(*byte);
            write!(f, "{letter}")?;
        }
        Ok(())
    }
}

/// The comment that stands in front of the script of the variant.
impl Display for Variant {
    ghost use Rattle.std.specs.Prelude.{Some};
    ghost use Rattle.pc_load.specs.Variants.{variant_text};

    ghost output = { λ variant. Some (variant_text variant) };

    fn fmt<W: Write>(&self, f: &mut Formatter<W>) -> fmt::Result {
        let title = Title(self.name.as_slice());
        let order = self.policy.order;
        let steals = self.policy.stealing();
        let (quantum, group, delay, cost) = (self.quantum, self.group, self.delay, self.cost);
        let (urgent, keep) = (self.urgent, self.keep);
        write!(
            f,
            "# lab, variant {title}: order {order}, steals {steals}, quantum {quantum}, group {group}, \
             delay {delay}, cost {cost}, urgent {urgent}, keep {keep}"
        )
    }
}
