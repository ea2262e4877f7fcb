// Moving bytes from one slice to another, as C's memmove does.
#![tactic(auto)]

ghost use Rattle.std.specs.Prelude.{◌≡◌};
ghost use Rattle.moves.specs.Moved.{moved};

// Moves the first bytes of src over those of dst, as many as both have. The rest of dst stays.
pub fn move_bytes(src: &[u8], dst: &mut [u8])
    ensures { dst.new ≡ moved src.now dst.old }
{
    let n = src.len().min(dst.len());
    dst[..n].copy_from_slice(&src[..n]);
}
