//! The sentences on a line that names the version, and on one that was passed over.

use crate::sentences::Sentences;
use crate::versions::number_of;
use pc_calls::MOST_THREADS_TWO;
use pc_messages::GREATEST_NUMBER;
use pc_script::{MOST_LINE, Version};
use std::fmt::{self, Write};

/// The sentences on the line that names the version.
pub(crate) fn on_version(version: Version) -> Sentences {
    let mut sentences = Sentences::new();
    // Sentences take any text: what goes past their room is left out.
    let _ = tell_version(&mut sentences, version);
    sentences
}

fn tell_version(text: &mut Sentences, version: Version) -> fmt::Result {
    match version {
        Version::One => Ok(()),
        Version::Two => {
            more_room(text, version)?;
            writeln!(text, ".")
        }
        Version::Three => {
            more_room(text, version)?;
            writeln!(
                text,
                ", its agents may be given a policy, and a CPU may be mended."
            )
        }
    }
}

/// What an enclave may have since a version.
fn more_room(text: &mut Sentences, version: Version) -> fmt::Result {
    let number = number_of(version);
    write!(
        text,
        "The script is of version {number}: an enclave may have up to {MOST_THREADS_TWO} threads, "
    )?;
    write!(text, "and each {GREATEST_NUMBER} messages")
}

/// The sentences on a line that a session passed over.
pub(crate) fn on_long_line() -> Sentences {
    let mut sentences = Sentences::new();
    let _ = writeln!(
        sentences,
        "The line is longer than {MOST_LINE} bytes, and was passed over."
    );
    sentences
}
