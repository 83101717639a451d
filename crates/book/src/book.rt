// The book of a district: the totals of everything that came in, left and was carried since the district was new.
// Each is an account, which stays at its largest value rather than wrap.

ghost use Rattle.card.specs.Limits.{nutrient_count};
ghost use Rattle.card.specs.Loads.{tenths};
ghost use Rattle.book.specs.Books.{book_of, masses, opening_kept, plus_masses, step_kept, withdrawal_kept};
ghost use Rattle.model.specs.State.{empty_book, income, largest_income};
ghost use Rattle.node.specs.Answers.{yielded};
ghost use Rattle.std.specs.Prelude.{◌≡◌, ◌+◌, ◌<◌, nat_le};

use card::concentrations::NUTRIENTS;
use node::answer::{Income, Yield};
use quantity::account::Account;
use quantity::load::Load;
use quantity::mass::Mass;
use quantity::water::Centilitres;
use std::array;

const LARGEST_INCOME: Centilitres = Centilitres(1_000_000_000_000_000_000);

#[derive(Clone, Copy)]
pub struct Book {
    pub rain: Centilitres,
    // the seepage that rose
    pub rise: Centilitres,
    // the storage of nodes as they were opened
    pub brought_in: Centilitres,
    pub evaporated: Centilitres,
    pub discharged: Centilitres,
    pub sunk: Centilitres,
    // the storage of nodes as they were withdrawn
    pub ceded: Centilitres,
    // the load of each nutrient
    pub loads: [Mass; NUTRIENTS],
}

impl Book {
    pub fn empty() -> Self
        ensures { book_of result ≡ empty_book }
    {
        Book {
            rain: Centilitres::zero(),
            rise: Centilitres::zero(),
            brought_in: Centilitres::zero(),
            evaporated: Centilitres::zero(),
            discharged: Centilitres::zero(),
            sunk: Centilitres::zero(),
            ceded: Centilitres::zero(),
            loads: [Mass::zero(); NUTRIENTS],
        }
    }

    // Whether a volume may still come in.
    pub fn has_room_for(&self, volume: Centilitres) -> bool
        ensures { result ≡ nat_le (income (book_of self.now) + volume.0) largest_income }
    {
        let income = self.rain.plus(self.rise).plus(self.brought_in);
        income.plus(volume) <= LARGEST_INCOME
    }

    // Books the opening of a node, which brings a volume in.
    pub fn book_opening(&mut self, volume: Centilitres)
        ensures { book_of self.new ≡ opening_kept (book_of self.old) volume.0 }
    {
        self.brought_in = self.brought_in.plus(volume);
    }

    // Books a step of a node. All seven flows are discharged.
    pub fn book_step(&mut self, incoming: &Income, answer: &Yield)
        ensures { book_of self.new ≡ step_kept (book_of self.old) incoming.now.rain.0 incoming.now.rise.0 (yielded answer.now) }
    {
        self.rain = self.rain.plus(incoming.rain);
        self.rise = self.rise.plus(incoming.rise);
        self.evaporated = self.evaporated.plus(answer.evaporated);
        self.discharged = self.discharged.plus(answer.flows.total());
        self.sunk = self.sunk.plus(answer.sunk);
        self.loads = with_loads(&self.loads, &answer.loads);
    }

    // Books the withdrawal of a node, which cedes a volume.
    pub fn book_withdrawal(&mut self, volume: Centilitres)
        ensures { book_of self.new ≡ withdrawal_kept (book_of self.old) volume.0 }
    {
        self.ceded = self.ceded.plus(volume);
    }
}

// To each mass the load of the same nutrient.
fn with_loads(sums: &[Mass; NUTRIENTS], loads: &[Load; NUTRIENTS]) -> [Mass; NUTRIENTS]
    ensures { masses result ≡ plus_masses (masses sums.now) (tenths loads.now) }
{
    array::from_fn(
        |nutrient|
            requires { nutrient < nutrient_count }
        { sums[nutrient].plus(loads[nutrient]) },
    )
}
