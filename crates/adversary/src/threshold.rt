// A rule by counts: at most so many processes are faulty, and at most so many of them Byzantine.
ghost use Rattle.std.specs.Prelude.{◌≡◌, true};
ghost use Rattle.adversary.specs.Refusals.{tolerable};

#[derive(Clone, Copy, Debug, PartialEq, Eq)]
pub struct Threshold {
    pub(crate) processes: u8,
    pub(crate) total: u8,
    pub(crate) byzantine: u8,
    ghost lawful: { tolerable processes total byzantine ≡ true },
}
