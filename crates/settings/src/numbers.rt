// The numbers of an answer.
ghost use Rattle.std.specs.Prelude.{◌≡◌, ◌≤◌, ◌∷◌};

use std::marker::Model;

// At most ten numbers; the places after them hold 0. An array and a length, seen as a list: the box has no heap.
#[derive(Clone, Copy)]
pub struct Numbers {
    places: [u8; 10],
    count: usize,
}

impl Model for Numbers {
    ghost use Rattle.std.specs.Prelude.{◌≡◌, ℕ, ◌≤◌, List, length, take};
    ghost use Rattle.std.proofs.Common.{ap, sym, subst, ◌∙◌};
    ghost use Rattle.std.proofs.Math.Seq.{length-take-le};
    ghost use Rattle.settings.specs.Numbers.{filled};

    ghost Value = { List ℕ };

    ghost view = { λ n. take n.count n.places };

    ghost invariant = { λ n. (n.count ≤ 10) × (length n.places ≡ 10) × (n.places ≡ filled (take n.count n.places)) };

    ghost inverse = { λ ns. record { places = filled ns; count = length ns } };

    ghost inverse_ok = { λ n h. ap (λ (k : ℕ). record { places = filled (take n.count n.places); count = k }) (length-take-le n.count n.places (subst (λ (m : ℕ). n.count ≤ m) (sym h.1) h.0)) ∙ ap (λ (xs : List ℕ). record { places = xs; count = n.count }) (sym h.2) };
}

impl Numbers {
    // An id, how many values it has, and the values, of which there are at most eight.
    pub(crate) fn of<const N: usize>(id: u8, values: [u8; N]) -> Numbers
        requires { N ≤ 8 }
        ensures { result ≡ id ∷ N ∷ values.entry }
    {
        let mut places = [0; 10];
        places[0] = id;
        places[1] = N as u8;
        laws::copy(&values, &mut places[2..N + 2]);
        Numbers {
            places,
            count: N + 2,
        }
    }

    // Them, as a slice.
    pub fn as_slice(&self) -> &[u8]
        ensures { result.now ≡ self.now }
    {
        &self.places[..self.count]
    }
}
