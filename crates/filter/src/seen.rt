// How far a walk has come.
ghost use Rattle.std.specs.Prelude.{◌≡◌, ◌+◌, ◌<◌, ◌^◌};

#[derive(Clone, Copy)]
pub struct Seen {
    // How many candidates were found.
    pub candidates: usize,
    // How many nodes were opened.
    pub opened: usize,
}

impl Seen {
    pub fn none() -> Seen
        ensures { result ≡ record { candidates = 0; opened = 0 } }
    {
        Seen {
            candidates: 0,
            opened: 0,
        }
    }

    // One node more.
    pub fn opening(self) -> Seen
        requires { self.opened + 1 < 2 ^ 64 }
        ensures { result ≡ record { candidates = self.candidates; opened = self.opened + 1 } }
    {
        Seen {
            opened: self.opened + 1,
            ..self
        }
    }
}
