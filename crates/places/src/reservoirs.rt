// Six reservoirs of the makes of a district.

ghost use Rattle.places.specs.Laws.{Laws};
ghost use Rattle.places.specs.States.{state, each_emptied};
ghost use Rattle.std.specs.Prelude.{◌≡◌, [], ◌∷◌, refl};

use crate::fault::{PlacedFault, at};
use crate::interface::Places;
use crate::makes::Makes;
use crate::place::Place;
use crate::volumes::Volumes;
use reservoir::interface::Reservoir;

#[derive(Drop)]
pub struct Reservoirs<M: Makes> {
    open: M::Open,
    paved: M::Paved,
    sewer: M::Sewer,
    surface: M::Surface,
    quick: M::Quick,
    slow: M::Slow,
}

impl<M: Makes> Reservoirs<M> {
    // Puts six reservoirs into their places and empties all. Whatever their makes, the laws over all places hold.
    pub fn new(
        open: M::Open,
        paved: M::Paved,
        sewer: M::Sewer,
        surface: M::Surface,
        quick: M::Quick,
        slow: M::Slow,
    ) -> Self
        ensures emptied { let states = ⟦<Reservoirs<M> as Places>⟧.reservoirs in
            states result ≡ each_emptied (states (record { «open» = «open»; paved = paved; sewer = sewer; surface = surface; quick = quick; slow = slow })) }
        ensures laws { Laws ⟦<Reservoirs<M> as Places>⟧.makes }
    {
        let mut all = Self {
            open,
            paved,
            sewer,
            surface,
            quick,
            slow,
        };
        all.empty();
        all
    }
}

impl<M: Makes> Places for Reservoirs<M> {
    ghost makes = { M.Open.make ∷ M.Paved.make ∷ M.Sewer.make ∷ M.Surface.make ∷ M.Quick.make ∷ M.Slow.make ∷ [] };

    ghost reservoirs = { λ p.
        state M.Open.settings M.Open.cells p.open
        ∷ state M.Paved.settings M.Paved.cells p.paved
        ∷ state M.Sewer.settings M.Sewer.cells p.sewer
        ∷ state M.Surface.settings M.Surface.cells p.surface
        ∷ state M.Quick.settings M.Quick.cells p.quick
        ∷ state M.Slow.settings M.Slow.cells p.slow
        ∷ [] };

    ghost six = { refl };

    ghost meanings = { (
      M.Open.meaning,
      (
        M.Paved.meaning,
        (
          M.Sewer.meaning,
          (M.Surface.meaning, (M.Quick.meaning, (M.Slow.meaning, tt))),
        ),
      ),
    ) };

    ghost fits = { λ p. (
      M.Open.fits p.open,
      (
        M.Paved.fits p.paved,
        (
          M.Sewer.fits p.sewer,
          (M.Surface.fits p.surface, (M.Quick.fits p.quick, (M.Slow.fits p.slow, tt))),
        ),
      ),
    ) };

    fn contents(&self) -> Volumes {
        Volumes {
            open: self.open.content(),
            paved: self.paved.content(),
            sewer: self.sewer.content(),
            surface: self.surface.content(),
            quick: self.quick.content(),
            slow: self.slow.content(),
        }
    }

    fn offer(&self, volumes: &Volumes) -> Result<(), PlacedFault> {
        at(self.open.offer(volumes.open), Place::Open)?;
        at(self.paved.offer(volumes.paved), Place::Paved)?;
        at(self.sewer.offer(volumes.sewer), Place::Sewer)?;
        at(self.surface.offer(volumes.surface), Place::Surface)?;
        at(self.quick.offer(volumes.quick), Place::Quick)?;
        at(self.slow.offer(volumes.slow), Place::Slow)?;
        Ok(())
    }

    fn take(&mut self, volumes: &Volumes) -> Result<Volumes, PlacedFault> {
        self.offer(volumes)?;
        Ok(Volumes {
            open: at(self.open.take(volumes.open), Place::Open)?,
            paved: at(self.paved.take(volumes.paved), Place::Paved)?,
            sewer: at(self.sewer.take(volumes.sewer), Place::Sewer)?,
            surface: at(self.surface.take(volumes.surface), Place::Surface)?,
            quick: at(self.quick.take(volumes.quick), Place::Quick)?,
            slow: at(self.slow.take(volumes.slow), Place::Slow)?,
        })
    }

    fn empty(&mut self) {
        self.open.empty();
        self.paved.empty();
        self.sewer.empty();
        self.surface.empty();
        self.quick.empty();
        self.slow.empty();
    }
}
