//! Several words put into the buffer, one after another.

ghost use Rattle.std.specs.Prelude.{◌≡◌, ◌+◌, ◌≤◌, ◌++◌, length};
ghost use Rattle.sleep_model.specs.Text.{space};

use log_words::{ByteBuffer, Spelled};

/// Puts two words at the end of the buffer, with a space between them.
#[inline(always)]
#[tactic(auto, using(std::proofs::Common::append_assoc))]
pub fn put_two_words<A: Spelled, B: Spelled>(out: &mut ByteBuffer, first: A, second: B)
    requires first { A.most first ≤ 64 }
    requires second { B.most second ≤ 64 }
    requires room { length out.old + 129 ≤ 32768 }
    ensures text { out.new ≡ out.old ++ (A.spelling first ++ space ++ B.spelling second) }
    ensures few { length out.new ≤ length out.old + 129 }
{
    first.put_on(out);
    out.put_byte(b' ');
    second.put_on(out);
}

/// Puts three words at the end of the buffer, with a space between two.
#[inline(always)]
#[tactic(auto, using(std::proofs::Common::append_assoc))]
pub fn put_three_words<A: Spelled, B: Spelled, C: Spelled>(
    out: &mut ByteBuffer,
    first: A,
    second: B,
    third: C,
)
    requires first { A.most first ≤ 64 }
    requires second { B.most second ≤ 64 }
    requires third { C.most third ≤ 64 }
    requires room { length out.old + 194 ≤ 32768 }
    ensures text { out.new ≡ out.old ++ (A.spelling first ++ space ++ B.spelling second ++ space ++ C.spelling third) }
    ensures few { length out.new ≤ length out.old + 194 }
{
    first.put_on(out);
    out.put_byte(b' ');
    put_two_words(out, second, third);
}

/// Puts four words at the end of the buffer, with a space between two.
#[inline(always)]
#[tactic(auto, using(std::proofs::Common::append_assoc))]
pub fn put_four_words<A: Spelled, B: Spelled, C: Spelled, D: Spelled>(
    out: &mut ByteBuffer,
    first: A,
    second: B,
    third: C,
    fourth: D,
)
    requires first { A.most first ≤ 64 }
    requires second { B.most second ≤ 64 }
    requires third { C.most third ≤ 64 }
    requires fourth { D.most fourth ≤ 64 }
    requires room { length out.old + 259 ≤ 32768 }
    ensures text { out.new ≡ out.old ++ (A.spelling first ++ space ++ B.spelling second ++ space ++ C.spelling third ++ space ++ D.spelling fourth) }
    ensures few { length out.new ≤ length out.old + 259 }
{
    first.put_on(out);
    out.put_byte(b' ');
    put_three_words(out, second, third, fourth);
}

/// Puts each piece in turn at the end of the buffer, as `put!(out; "source ", name)`.
macro_rules! put {
    ($out:expr; $($part:expr),+) => {{
        $(Spelled::put_on($part, $out);)+
    }};
}

/// Puts up to four words at the end of the buffer, with a space between two, as `put_words!(out; Verb::Save,
/// count, OK)`.
macro_rules! put_words {
    ($out:expr; $first:expr) => {
        Spelled::put_on($first, $out)
    };
    ($out:expr; $first:expr, $second:expr) => {
        $crate::writing::put::put_two_words($out, $first, $second)
    };
    ($out:expr; $first:expr, $second:expr, $third:expr) => {
        $crate::writing::put::put_three_words($out, $first, $second, $third)
    };
    ($out:expr; $first:expr, $second:expr, $third:expr, $fourth:expr) => {
        $crate::writing::put::put_four_words($out, $first, $second, $third, $fourth)
    };
}

pub(crate) use put;
pub(crate) use put_words;
