// What a run asks of the outside: bytes in, bytes out, and the files that words name.
ghost use Rattle.std.specs.Prelude.{◌≡◌, ◌<◌, ℕ, List, Option, Bool, true, false, is_ok, length, take, IfOk, OnOk, OnErr, IsErr};
ghost use Rattle.std.specs.Io.{ReadsAtMost};
ghost use Rattle.std.specs.Io.KnownBytes.{Appends, Consumes, IsAtEnd, Keeps};
ghost use Rattle.cape_io.specs.Devices.{Rose, AppendsPrefix, KnownFile, Absent, StartsAt, word_at};

/// A device did not do what it was asked to. Its count of faults rose by one, or stands at the last
/// number that a `u64` holds.
#[derive(Clone, Copy, Debug, PartialEq, Eq)]
pub struct Failed;

/// Where bytes come from.
pub trait Source {
    /// The bytes left, where they are known.
    ghost left: { Self → Option (List ℕ) };

    /// How often the source has failed.
    ghost faults: { Self → ℕ };

    /// Moves the next bytes to the start of the buffer, and answers how many. 0 into a buffer
    /// that is not empty is the end of the input. At `Failed` nothing was moved.
    fn take(&mut self, buf: &mut [u8]) -> Result<usize, Failed>
        ensures bound { ReadsAtMost result buf.new }
        ensures moved { IfOk result (λ n. Consumes (left self.old) (left self.new) (take n buf.new)) }
        ensures ended { IfOk result (λ n. n ≡ 0 → 0 < length buf.new → IsAtEnd (left self.new)) }
        ensures kept { OnErr result (Keeps (left self.old) (left self.new)) }
        ensures quiet { OnOk result (faults self.new ≡ faults self.old) }
        ensures rose { OnErr result (Rose (faults self.old) (faults self.new)) };
}

/// Where bytes go.
pub trait Sink {
    /// The bytes held, where they are known.
    ghost held: { Self → Option (List ℕ) };

    /// How often the sink has failed.
    ghost faults: { Self → ℕ };

    /// What a put of a piece makes of the sink, where it goes and where it fails. By this a caller
    /// says which pieces it put, and in which order.
    ghost put_gives: { Self → List ℕ → Bool → Self → Type 0 };

    /// Appends the whole piece. At `Failed` it appended some prefix of the piece.
    fn put(&mut self, piece: &[u8]) -> Result<(), Failed>
        ensures whole { OnOk result (Appends (held self.old) (held self.new) piece.now) }
        ensures prefix { OnErr result (AppendsPrefix (held self.old) (held self.new) piece.now) }
        ensures gives { put_gives self.old piece.now (is_ok result) self.new }
        ensures quiet { OnOk result (faults self.new ≡ faults self.old) }
        ensures rose { OnErr result (Rose (faults self.old) (faults self.new)) };
}

/// The files that words name, of which one at a time is open.
pub trait Files {
    /// The words that it was made over.
    ghost names: { Self → List (List ℕ) };

    /// What is known of the file of a name.
    ghost known_file: { Self → List ℕ → KnownFile };

    /// Whether a file is open.
    ghost is_open: { Self → Bool };

    /// The bytes left of the open file, where they are known.
    ghost left: { Self → Option (List ℕ) };

    /// How often the files have failed.
    ghost faults: { Self → ℕ };

    /// The place that the last `open` was given, 0 before the first.
    ghost at: { Self → ℕ };

    /// The count of faults as the last `open` began, 0 before the first.
    ghost since: { Self → ℕ };

    /// Opens the file named by the word at `place`, counted from 0, from its first byte. At
    /// `Failed` no file is open.
    fn open(&mut self, place: usize) -> Result<(), Failed>
        requires { place < length (names self.old) }

        ensures opened { OnOk result (is_open self.new ≡ true) }
        ensures start { OnOk result
            (StartsAt (known_file self.old (word_at (names self.old) place)) (left self.new)) }
        ensures missing { known_file self.old (word_at (names self.old) place) ≡ Absent → IsErr result }
        ensures closed { OnErr result (is_open self.new ≡ false) }

        ensures at { at self.new ≡ place }
        ensures since { since self.new ≡ faults self.old }
        ensures names { names self.new ≡ names self.old }
        ensures known_file { known_file self.new ≡ known_file self.old }

        ensures quiet { OnOk result (faults self.new ≡ faults self.old) }
        ensures rose { OnErr result (Rose (faults self.old) (faults self.new)) };

    /// Moves the next bytes of the open file, as `take` of a `Source` does. The file stays open,
    /// also at `Failed`.
    fn take(&mut self, buf: &mut [u8]) -> Result<usize, Failed>
        requires { is_open self.old ≡ true }

        ensures bound { ReadsAtMost result buf.new }
        ensures moved { IfOk result (λ n. Consumes (left self.old) (left self.new) (take n buf.new)) }
        ensures ended { IfOk result (λ n. n ≡ 0 → 0 < length buf.new → IsAtEnd (left self.new)) }
        ensures kept { OnErr result (Keeps (left self.old) (left self.new)) }

        ensures stays_open { is_open self.new ≡ true }
        ensures at { at self.new ≡ at self.old }
        ensures since { since self.new ≡ since self.old }
        ensures names { names self.new ≡ names self.old }
        ensures known_file { known_file self.new ≡ known_file self.old }

        ensures quiet { OnOk result (faults self.new ≡ faults self.old) }
        ensures rose { OnErr result (Rose (faults self.old) (faults self.new)) };
}
