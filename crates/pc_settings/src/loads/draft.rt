//! What a thread's keys tell.

ghost use Rattle.std.specs.Prelude.{◌≡◌, true};
ghost use Rattle.pc_settings.specs.Inner.Values.{are_integers};

use crate::shared_keys::ThreadKeys;
use toml::Value;

/// A thread as its keys tell it.
#[derive(Drop)]
pub(crate) struct Draft<'a> {
    pub(crate) keys: ThreadKeys<'a>,
    pub(crate) start: i64,
    pub(crate) level: i64,
    pub(crate) sleeps: &'a [Value],
    ghost integers_only: { are_integers sleeps.now ≡ true },
}
