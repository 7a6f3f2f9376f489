//! The cell takes in what is published whole: the newest look stands for all before it.
use crate::published::Published;
use left_right::Absorb;
use std::alloc::AllocError;

impl Absorb<Published> for Published {
    type State = Published;

    ghost state = { λ p. p };

    ghost applied = { λ p next. next };

    ghost never_fails = { Unit {0} };

    fn absorb_first(&mut self, next: &Published, _: &Published) -> Result<(), AllocError> {
        *self = next.copy();
        Ok(())
    }
}
