//! What is said of a key that is not known.

use crate::field::Field;
use crate::known::TableKind;
use crate::unknown::{KEPT, KeyStart, UnknownKey};
use pc_pen::QuotedWord;
use std::fmt::{self, Display, Formatter, Write};

/// A key, as a word is quoted.
impl Display for KeyStart {
    ghost use Rattle.std.specs.Prelude.{Some};
    ghost use Rattle.pc_settings.specs.UnknownWords.{start_text};

    ghost output = { λ key. Some (start_text key) };

    fn fmt<W: Write>(&self, f: &mut Formatter<W>) -> fmt::Result {
        let length = KEPT.min(self.length);
        let quoted = QuotedWord(&self.bytes[..length]);
        write!(f, "{quoted}")
    }
}

/// Where a table stands: its kind and its place; nothing of the text's own table.
#[derive(Clone, Copy)]
struct TablePlace(TableKind, usize);

impl Display for TablePlace {
    ghost use Rattle.std.specs.Prelude.{Some};
    ghost use Rattle.pc_settings.specs.UnknownWords.{place_text};

    ghost output = { λ at. Some (place_text at.0 at.1) };

    fn fmt<W: Write>(&self, f: &mut Formatter<W>) -> fmt::Result {
        let place = self.1;
        match self.0 {
            TableKind::Top => Ok(()),
            TableKind::Thread => write!(f, "thread {place}: "),
            TableKind::Restart => write!(f, "restart {place}: "),
            TableKind::Variant => write!(f, "variant {place}: "),
        }
    }
}

/// The known key that is nearest, where one is near.
#[derive(Clone, Copy)]
struct Nearest(Option<Field>);

impl Display for Nearest {
    ghost use Rattle.std.specs.Prelude.{Some};
    ghost use Rattle.pc_settings.specs.UnknownWords.{nearest_text};

    ghost output = { λ nearest. Some (nearest_text nearest.0) };

    fn fmt<W: Write>(&self, f: &mut Formatter<W>) -> fmt::Result {
        match self.0 {
            Some(field) => {
                let key = field.key();
                write!(f, "; the nearest is {key}")
            }
            None => Ok(()),
        }
    }
}

/// Where the key stands, and the known key that is nearest: `variant 0: quantom: no such key; the nearest is quantum`.
impl Display for UnknownKey {
    ghost use Rattle.std.specs.Prelude.{Some};
    ghost use Rattle.pc_settings.specs.UnknownWords.{unknown_text};

    ghost output = { λ unknown. Some (unknown_text unknown) };

    fn fmt<W: Write>(&self, f: &mut Formatter<W>) -> fmt::Result {
        let place = TablePlace(self.table, self.place);
        let key = self.key;
        let nearest = Nearest(self.nearest);
        write!(f, "{place}{key}: no such key{nearest}")
    }
}
