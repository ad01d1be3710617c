//! A text in two halves.
ghost use Rattle.std.{specs.Prelude.{◌≡◌, ◌<◌, ◌^◌, ◌==◌, [], drop, length, take}, specs.Str.IsCharBoundary};
ghost use Rattle.yq_text.specs.Halves.{whole};

/// A text in two halves, one after the other.
#[derive(Clone, Copy)]
pub struct Halves<'t> {
    pub front: &'t str,
    pub back: &'t str,
}

impl<'t> Halves<'t> {
    /// A text whose second half is empty.
    pub fn of(text: &'t str) -> Halves<'t>
        ensures front { result.front.now ≡ text.now }
        ensures back { result.back.now ≡ [] }
        ensures whole { whole result ≡ text.now }
    {
        Halves {
            front: text,
            back: "",
        }
    }

    /// How long the text is, in bytes.
    pub fn len(self) -> usize
        requires { length (whole self) < 2 ^ 64 }
        ensures { result ≡ length (whole self.entry) }
    {
        self.front.len() + self.back.len()
    }

    /// Whether it has no bytes.
    pub fn is_empty(self) -> bool
        ensures { result ≡ (length (whole self.entry) == 0) }
    {
        self.front.is_empty() && self.back.is_empty()
    }

    /// The text cut after so many bytes.
    pub fn split_at(self, at: usize) -> (Halves<'t>, Halves<'t>)
        requires { IsCharBoundary (whole self) at }
        ensures front { whole result.0 ≡ take at (whole self.entry) }
        ensures back { whole result.1 ≡ drop at (whole self.entry) }
    {
        if at <= self.front.len() {
            let (before, rest) = self.front.split_at(at);
            return (
                Halves::of(before),
                Halves {
                    front: rest,
                    back: self.back,
                },
            );
        }
        let (rest, after) = self.back.split_at(at - self.front.len());
        (
            Halves {
                front: self.front,
                back: rest,
            },
            Halves::of(after),
        )
    }
}
