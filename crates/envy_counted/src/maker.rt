use crate::{LooseMaker, StrictBoard};
use envy_base::{Maker, NoMemory, Shape};
use std::alloc::Global;

/// Makes exact boards of those that another maker makes.
#[derive(Drop)]
pub struct StrictMaker<M> {
    pub maker: M,
}

impl<M: LooseMaker> Maker for StrictMaker<M> {
    type Made = StrictBoard<M::Made>;

    fn make(
        &mut self,
        alloc: Global,
        shape: &Shape,
        lives: u32,
    ) -> Result<StrictBoard<M::Made>, NoMemory> {
        let board = self.maker.make(alloc, shape, lives)?;
        Ok(StrictBoard::over(board))
    }
}
