// The work tally, handed back after every sweep and every bisection.
ghost use Rattle.std.specs.Prelude.{◌≡◌, ◌+◌, ◌<◌, ◌^◌};
ghost use Rattle.floats.specs.Count.{no_work, one_sweep, one_bisection, evaluated};

#[derive(Clone, Copy, Default)]
pub struct Tally {
    pub sweeps: usize,
    pub bisections: usize,
    pub evaluations: usize,
}

impl Tally {
    pub fn new() -> Tally
        ensures { result ≡ no_work }
    {
        Tally::default()
    }

    // One QL sweep more.
    pub fn swept(mut self) -> Tally
        requires { self.sweeps + 1 < 2 ^ 64 }
        ensures { result ≡ one_sweep self }
    {
        self.sweeps += 1;
        self
    }

    // One bisection more.
    pub fn bisected(mut self) -> Tally
        requires { self.bisections + 1 < 2 ^ 64 }
        ensures { result ≡ one_bisection self }
    {
        self.bisections += 1;
        self
    }

    // `k` evaluations of the integrand more.
    pub fn evaluated(mut self, k: usize) -> Tally
        requires { self.evaluations + k < 2 ^ 64 }
        ensures { result ≡ evaluated k self }
    {
        self.evaluations += k;
        self
    }
}
