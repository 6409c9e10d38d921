// The pool of registers: a number whose bit k says that $k may be used.
ghost use Rattle.std.specs.Prelude.{◌≡◌, ◌<◌, length};
ghost use Rattle.compiler.specs.Pool.{registers_of, fresh, without};

#[derive(Clone, Copy)]
pub(crate) struct Pool {
    pub(crate) bits: u64,
}

impl Pool {
    // The lowest register.
    #[tactic(auto, using(crate::proofs::Pools::fresh_is_lowest))]
    pub(crate) fn lowest(self) -> u32
        requires { 0 < length (registers_of self.bits) }
        ensures { result ≡ fresh (registers_of self.bits) }
    {
        self.bits.trailing_zeros()
    }

    // The pool less its lowest register, whose bit is cleared.
    #[tactic(auto, using(crate::proofs::Pools::pool_pos, crate::proofs::Pools::without_lowest))]
    pub(crate) fn less_lowest(self) -> Pool
        requires { 0 < length (registers_of self.bits) }
        ensures { registers_of result.bits ≡ without (registers_of self.bits) }
    {
        Pool {
            bits: self.bits & (self.bits - 1),
        }
    }

    // The number of registers.
    #[tactic(auto, using(crate::proofs::Pools::count_registers))]
    pub(crate) fn count(self) -> u32
        ensures { result ≡ length (registers_of self.bits) }
    {
        self.bits.count_ones()
    }
}
