// The calls of a district. A refused call changes nothing.

ghost use Rattle.card.specs.Checking.{numbers_of};
ghost use Rattle.district.specs.Answers.{FollowsRules, answered, answered_reading, district_of, viewed, volume};
ghost use Rattle.model.specs.Calls.{granted, looking, opening, reading, stepping, withdrawing};
ghost use Rattle.model.specs.Laws.{BookCloses, ChangesNothing, MoreRainThroughDistricts, NoCellLeftUnused, TotalsStayWithin, VerdictIsOffer, WithdrawnStays};
ghost use Rattle.model.specs.Soundness.{Sound};
ghost use Rattle.model.specs.State.{new_district};
ghost use Rattle.model.specs.Worked.{WorkedCalls};
ghost use Rattle.node.specs.Answers.{yielded};
ghost use Rattle.std.specs.Prelude.{◌≡◌, vec_len};

use crate::district::{District, Reading};
use book::book::Book;
use card::card::CheckedCard;
use ground::forcing::Forcing;
use node::answer::{View, Yield};
use node::node::Node;
use places::interface::Places;
use quantity::account::Account;
use quantity::water::Centilitres;
use roll::fault::DistrictFault;
use roll::roll::Roll;

impl<P: Places> District<P> {
    // A new district over its caller's node cells. Whatever they had is let go. Of its makes the laws of districts hold.
    pub fn new(cells: Vec<Option<Node<P>>>) -> Self
        ensures starts { district_of P.Places.reservoirs result ≡ new_district (vec_len cells) }
        ensures sound { Sound P.Places.makes (district_of P.Places.reservoirs result) }
        ensures book_closes { BookCloses P.Places.makes }
        ensures more_rain_gives_no_less { MoreRainThroughDistricts P.Places.makes }
        ensures no_cell_left_unused { NoCellLeftUnused P.Places.makes }
        ensures withdrawn_stays { WithdrawnStays P.Places.makes }
        ensures changes_nothing { ChangesNothing P.Places.makes }
        ensures totals_stay_within { TotalsStayWithin P.Places.makes }
        ensures verdict_is_offer { VerdictIsOffer }
        ensures worked_calls { WorkedCalls }
    {
        District {
            roll: Roll::new(cells),
            book: Book::empty(),
        }
    }

    // Opens a node under a new number, on a card, which is spent, over six reservoirs, which are emptied. Answers the
    // volume that it brings in.
    pub fn open(
        &mut self,
        number: u32,
        card: CheckedCard,
        reservoirs: P,
    ) -> Result<Centilitres, DistrictFault>
        ensures { FollowsRules P.Places.makes (district_of P.Places.reservoirs self.old)
            (opening number (numbers_of card) (P.Places.reservoirs reservoirs))
            (answered (opening number (numbers_of card) (P.Places.reservoirs reservoirs)) volume result)
            (district_of P.Places.reservoirs self.new) }
    {
        self.roll.vacancy(number)?;
        let node = Node::open(card, reservoirs);
        let volume = node.storage();
        if !self.book.has_room_for(volume) {
            return Err(DistrictFault::IncomeTooLarge);
        }
        // tried again, since the roll asks nothing of its callers
        self.roll.admit(number, node)?;
        self.book.book_opening(volume);
        Ok(volume)
    }

    // One step of the node of an open number under a forcing: all of it happens or nothing.
    pub fn step(&mut self, number: u32, forcing: Forcing) -> Result<Yield, DistrictFault>
        ensures { FollowsRules P.Places.makes (district_of P.Places.reservoirs self.old)
            (stepping number forcing) (answered (stepping number forcing) yielded result)
            (district_of P.Places.reservoirs self.new) }
    {
        let node = self.roll.node(number)?;
        node.offer(forcing)?;
        let income = node.income(forcing);
        if !self.book.has_room_for(income.rain.plus(income.rise)) {
            return Err(DistrictFault::IncomeTooLarge);
        }
        let answer = self.roll.step(number, forcing)?;
        self.book.book_step(&income, &answer);
        Ok(answer)
    }

    // Withdraws an open number and its node. Answers the volume that is ceded.
    pub fn withdraw(&mut self, number: u32) -> Result<Centilitres, DistrictFault>
        ensures { FollowsRules P.Places.makes (district_of P.Places.reservoirs self.old)
            (withdrawing number) (answered (withdrawing number) volume result)
            (district_of P.Places.reservoirs self.new) }
    {
        let node = self.roll.withdraw(number)?;
        let ceded = node.storage();
        self.book.book_withdrawal(ceded);
        Ok(ceded)
    }

    // Looks at the node of an open number. Nothing is changed.
    pub fn look(&self, number: u32) -> Result<View, DistrictFault>
        ensures { FollowsRules P.Places.makes (district_of P.Places.reservoirs self.now)
            (looking number) (answered (looking number) viewed result)
            (district_of P.Places.reservoirs self.now) }
    {
        let node = self.roll.node(number)?;
        Ok(node.look())
    }

    // Reads the book and the storage, which is asked of all open nodes. Nothing is changed.
    pub fn read(&self) -> Reading
        ensures { FollowsRules P.Places.makes (district_of P.Places.reservoirs self.now)
            reading (granted (answered_reading result)) (district_of P.Places.reservoirs self.now) }
    {
        Reading {
            book: self.book,
            storage: self.roll.storage(),
        }
    }
}
