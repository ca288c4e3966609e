// An operation on words, across whole registers.

use register::Register;

// f at each word.
pub(crate) fn at_words<F: Fn(u32) -> u32>(f: F, a: Register) -> Register
    requires { F.IsAlwaysCallable f }
    ensures w0 { F.post f a.w0 result.w0 }
    ensures w1 { F.post f a.w1 result.w1 }
    ensures w2 { F.post f a.w2 result.w2 }
    ensures w3 { F.post f a.w3 result.w3 }
{
    Register {
        w0: f(a.w0),
        w1: f(a.w1),
        w2: f(a.w2),
        w3: f(a.w3),
    }
}

// f at the matching words of two registers.
pub(crate) fn at_pairs<F: Fn(u32, u32) -> u32>(f: F, a: Register, b: Register) -> Register
    requires { F.IsAlwaysCallable f }
    ensures w0 { F.post f a.w0 b.w0 result.w0 }
    ensures w1 { F.post f a.w1 b.w1 result.w1 }
    ensures w2 { F.post f a.w2 b.w2 result.w2 }
    ensures w3 { F.post f a.w3 b.w3 result.w3 }
{
    Register {
        w0: f(a.w0, b.w0),
        w1: f(a.w1, b.w1),
        w2: f(a.w2, b.w2),
        w3: f(a.w3, b.w3),
    }
}
