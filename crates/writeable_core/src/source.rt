ghost use Rattle.std.specs.Prelude.{◌≡◌, ℕ, ◌<◌, ◌≤◌, ◌==◌, Bool, List, length, take, Option, IfOk};
ghost use Rattle.std.specs.Prelude.{OnOk, OnErr};
ghost use Rattle.std.specs.Io.KnownBytes.{Consumes, Keeps, IsAtEnd};
ghost use Rattle.writeable_core.specs.Sink.{Rose};
ghost use Rattle.writeable_core.specs.Words.{words_of_source};

use thiserror::Error;

/// Why a source gave nothing.
#[derive(Clone, Copy, Debug, PartialEq, Eq, Error)]
pub enum SourceFault {
    /// What stands behind the source refused.
    #[error("read fault")]
    Fault,
}

impl SourceFault {
    /// A few words on the fault.
    pub fn text(&self) -> &'static str
        ensures { result.now ≡ words_of_source }
    {
        "read fault"
    }
}

/// What bytes are read from, a piece at a time.
pub trait Source {
    /// The bytes that are left, where the source tells them.
    ghost left: { Self → Option (List ℕ) };

    /// How many calls have failed so far.
    ghost faults: { Self → ℕ };

    /// The end mark: whether the latest read that had room, faults aside, gave nothing.
    ghost ended: { Self → Bool };

    /// Gives the next bytes into the front of the buffer, and says how many: 0 where the buffer
    /// has no room or nothing is left. A call that fails gives none.
    fn read(&mut self, buffer: &mut [u8]) -> Result<usize, SourceFault>
        ensures count { IfOk result (λ k. k ≤ length buffer.old) }
        ensures bytes { IfOk result
            (λ k. Consumes (left self.old) (left self.new) (take k buffer.new)) }
        ensures end { IfOk result (λ k. 0 < length buffer.old → k ≡ 0 → IsAtEnd (left self.new)) }
        ensures mark { IfOk result (λ k. 0 < length buffer.old → ended self.new ≡ (k == 0)) }
        ensures empty { length buffer.old ≡ 0 → ended self.new ≡ ended self.old }
        ensures no_fault { OnOk result (faults self.new ≡ faults self.old) }
        ensures kept { OnErr result (Keeps (left self.old) (left self.new)) }
        ensures mark_kept { OnErr result (ended self.new ≡ ended self.old) }
        ensures later { faults self.old ≤ faults self.new }
        ensures cause { OnErr result (Rose (faults self.old) (faults self.new)) };
}
