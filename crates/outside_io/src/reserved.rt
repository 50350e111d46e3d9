//! Memory that was reserved before.
ghost use Rattle.std.specs.Prelude.{◌≡◌, ◌+◌, ◌≤◌, ◌++◌, length, vec_len, vec_capacity};
ghost use Rattle.std.specs.Vec.{vec_ptr};

// Appends the piece in the reserved memory, and takes no other.
pub(crate) fn append(bytes: &mut Vec<u8>, piece: &[u8])
    requires { vec_len bytes.old + length piece.now ≤ vec_capacity bytes.old }
    ensures items { bytes.new.items ≡ bytes.old.items ++ piece.now }
    ensures len { vec_len bytes.new ≡ vec_len bytes.old + length piece.now }
    ensures capacity { vec_capacity bytes.new ≡ vec_capacity bytes.old }
    ensures in_place { vec_ptr bytes.new ≡ vec_ptr bytes.old }
{
    for byte in piece {
        bytes.push_reserved(*byte);
    }
}
