// The cost interface: what a kind of cost can do, and what it must keep.
ghost use Rattle.std.specs.Prelude.{◌≡◌, ℕ, List};
ghost use Rattle.costs.specs.Bytes.{over};
ghost use Rattle.costs.specs.Kinds.{Operations, Laws, composed};
ghost use Rattle.costs.specs.Written.{Written, WrittenLaws, Read};

pub trait CostKind: Copy {
    ghost operations: { Operations Self };

    fn empty() -> Self
        ensures { result ≡ operations.empty };

    fn compose(self, other: Self) -> Self
        ensures { result ≡ operations.compose self other };

    // Not given for all kinds by `<=`: a kind need have no order but this one.
    fn at_most(self, other: Self) -> bool
        ensures { result ≡ operations.at_most self other };

    // What is left of `to` after this cost.
    fn rest(self, to: Self) -> Self
        ensures { result ≡ operations.rest self to };

    ghost lawful: { Laws operations };
}

// A kind whose rows of costs come to something in whole numbers.
pub trait PlainKind: CostKind {
    ghost means: { List Self → Self → Type 0 };

    ghost row_means: { (costs : List Self) → means costs (composed Self.operations costs) };
}

// A kind that goes into certificates.
pub trait WrittenKind: CostKind {
    // Each constant is tied to the ghost member of its name, by which generic code knows its value.
    ghost CODE: { ℕ };

    const CODE: u8;

    ghost BODY_SIZE: { ℕ };

    const BODY_SIZE: usize;

    ghost written: { Written Self };

    // Writes the body to the front of `out`, as far as `out` reaches.
    fn write_body(self, out: &mut [u8])
        ensures { out.new ≡ over (written.body self) out.old };

    // Reads a body from the front of `bytes`; a missing byte counts as 0.
    fn read_body(bytes: &[u8]) -> Self
        ensures { Read written bytes.now result };

    // Whether a table's cell may hold this cost.
    fn may_stand(self) -> bool
        ensures { result ≡ written.may_stand self };

    // The cost of so many minutes of rest too few.
    fn shortage(minutes: u16) -> Self
        ensures { result ≡ written.shortage minutes };

    ghost faithful: { WrittenLaws written };

    ghost code_is: { CODE ≡ written.code };

    ghost size_is: { BODY_SIZE ≡ written.body_size };
}
