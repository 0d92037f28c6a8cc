//! What a watcher promises to the session that it watches.
ghost use Rattle.std.specs.Prelude.{◌≡◌, ◌≢◌, ◌++◌, None, OnOk, OnErr, IsErrOf, ◌↔◌};
ghost use Rattle.enc_watch.specs.declared.event.WatchKind.{WatchKind};
ghost use Rattle.enc_watch.specs.Audience.{Watching, with_event};
ghost use Rattle.enc_watch.specs.Watched.{HasReached, report_of};

use crate::event::{Event, HearError, WatchKind};
use std::alloc::AllocError;

/// Hears the events of a session one by one, and reports what it heard. Two watchers of one kind that heard the same
/// events report the same.
pub trait Watcher: Drop {
    // How it reports, after how many events it fails, and the events that it heard, in order.
    ghost watching: { Self → Watching };

    /// How it reports. Only a watcher of the kind `Failing` has a limit.
    fn kind(&self) -> WatchKind
        ensures kind { result ≡ (watching self.now).kind }
        ensures unlimited { result ≢ WatchKind.Failing → (watching self.now).limit ≡ None };

    /// Hears one event more. It is `Failed` exactly where the limit is reached before; after any error no event more
    /// is heard.
    fn hear(&mut self, event: Event) -> Result<(), HearError>
        ensures ok { OnOk result (watching self.new ≡ with_event event (watching self.old)) }
        ensures err { OnErr result (watching self.new ≡ watching self.old) }
        ensures failed { IsErrOf result HearError.Failed
            ↔ HasReached (watching self.old).limit (watching self.old).heard };

    /// Appends the report of what was heard, as its kind has it. Without memory nothing is appended.
    fn report(&self, out: &mut Vec<u8>) -> Result<(), AllocError>
        ensures ok { OnOk result (out.new.items ≡
            out.old.items ++ report_of (watching self.now).kind (watching self.now).heard) }
        ensures err { OnErr result (out.new.items ≡ out.old.items) };
}

impl Watcher for Box<dyn Watcher> {
    ghost watching = { λ b. (Watcher-box b).watching b.value };

    fn kind(&self) -> WatchKind {
        self.as_ref().kind()
    }

    fn hear(&mut self, event: Event) -> Result<(), HearError> {
        self.as_mut().hear(event)
    }

    fn report(&self, out: &mut Vec<u8>) -> Result<(), AllocError> {
        self.as_ref().report(out)
    }
}
