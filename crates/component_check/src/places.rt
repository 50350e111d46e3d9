//! The first place at which a rule is broken.
ghost use Rattle.std.specs.Prelude.{◌≡◌, ◌<◌, ◌^◌, ℕ, length, IfSome};
ghost use Rattle.component_check.specs.Places.{each_of, first_place, FirstBy};

/// The first index below `count` at which the test holds.
pub fn first_place<F: Fn(usize) -> bool>(count: usize, test: F) -> Option<u32>
    requires few { count < 2 ^ 32 }
    requires callable { (i : ℕ) → i < count → F.pre test i }
    ensures first { FirstBy (F.post test) count result }
    ensures within { IfSome result (λ p. p < count) }
{
    for i in 0..count {
        if test(i) {
            return Some(i as u32);
        }
    }
    None
}

/// The first of some tests that is broken.
pub fn each_of(broken: &[bool]) -> Option<u32>
    requires { length broken.now < 2 ^ 32 }
    ensures { result ≡ first_place (each_of broken.now) }
{
    for i in 0..broken.len() {
        if broken[i] {
            return Some(i as u32);
        }
    }
    None
}
