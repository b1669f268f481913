//! The tables of a text, and the keys that each of them may have.

use crate::field::Field;

/// A table of settings, of a load or of variants.
#[derive(Clone, Copy, Debug, PartialEq, Eq)]
pub enum TableKind {
    /// That of the text itself.
    Top,
    /// A thread.
    Thread,
    /// A restart.
    Restart,
    /// A variant.
    Variant,
}

impl TableKind {
    ghost use Rattle.std.specs.Prelude.{◌≡◌};
    ghost use Rattle.pc_settings.specs.KnownKeys.{fields_of, is_known};

    /// The keys that such a table may have, in the order in which they are documented.
    pub(crate) fn fields(self) -> &'static [Field]
        ensures { result.now ≡ fields_of self }
    {
        match self {
            TableKind::Top => &[
                Field::Cpus,
                Field::Threads,
                Field::Restarts,
                Field::Until,
                Field::Variants,
            ],
            TableKind::Thread => &[
                Field::Queue,
                Field::Mask,
                Field::Steps,
                Field::Start,
                Field::Level,
                Field::Sleeps,
            ],
            TableKind::Restart => &[Field::Cpu, Field::Turn],
            TableKind::Variant => &[
                Field::Name,
                Field::Order,
                Field::Steals,
                Field::Quantum,
                Field::Group,
                Field::Delay,
                Field::Cost,
                Field::Urgent,
                Field::Keep,
            ],
        }
    }

    /// Whether such a table may have this key.
    pub(crate) fn is_known(self, key: &[u8]) -> bool
        ensures { result ≡ is_known self key.now }
    {
        self.fields()
            .iter()
            .any(|field| key == field.key().as_bytes())
    }
}
