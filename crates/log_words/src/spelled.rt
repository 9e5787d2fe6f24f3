//! What has one spelling in a log, and how its pieces are put together.

ghost use Rattle.std.specs.Prelude.{◌∷◌, [], decimal, length};

use crate::buffer::ByteBuffer;
use crate::short::ShortText;

/// What has one spelling in a log.
pub trait Spelled {
    ghost use Rattle.std.specs.Prelude.{ℕ, List, ◌≡◌, ◌+◌, ◌≤◌, ◌++◌, length};

    ghost spelling: { Self → List ℕ };

    /// The most bytes that the spelling has.
    ghost most: { Self → ℕ };

    /// Puts it at the end of the buffer.
    fn put_on(self, out: &mut ByteBuffer)
        requires short { most self ≤ 64 }
        requires room { length out.old + 64 ≤ 32768 }
        ensures text { out.new ≡ out.old ++ spelling self }
        ensures few { length out.new ≤ length out.old + 64 };
}

impl Spelled for &str {
    ghost spelling = { λ text. text.now };

    ghost most = { λ text. length text.now };

    #[inline(always)]
    fn put_on(self, out: &mut ByteBuffer) {
        out.put_text(self);
    }
}

impl Spelled for &[u8] {
    ghost spelling = { λ bytes. bytes.now };

    ghost most = { λ bytes. length bytes.now };

    #[inline(always)]
    fn put_on(self, out: &mut ByteBuffer) {
        out.put(self);
    }
}

impl Spelled for &ShortText {
    ghost spelling = { λ text. text.now };

    ghost most = { λ _. 56 };

    #[inline(always)]
    fn put_on(self, out: &mut ByteBuffer) {
        out.put_short(self);
    }
}

impl Spelled for u8 {
    ghost spelling = { λ byte. byte ∷ [] };

    ghost most = { λ _. 1 };

    #[inline(always)]
    fn put_on(self, out: &mut ByteBuffer) {
        out.put_byte(self);
    }
}

impl Spelled for u32 {
    ghost spelling = { decimal };

    ghost most = { λ _. 10 };

    #[inline(always)]
    fn put_on(self, out: &mut ByteBuffer) {
        out.put_number(u64::from(self));
    }
}

impl Spelled for u64 {
    ghost spelling = { decimal };

    ghost most = { λ _. 20 };

    #[inline(always)]
    fn put_on(self, out: &mut ByteBuffer) {
        out.put_number(self);
    }
}
