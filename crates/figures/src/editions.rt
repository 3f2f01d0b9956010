// Editions: which there are, and what each changes. An engine asks here, once at a place.
ghost use Rattle.std.specs.Prelude.{◌≡◌};
ghost use Rattle.rules.specs.Editions.{is_edition, heeds_splices, rounds_to_nearest, knows_damage};

// An edition that there is: 20 and 17 let it pass.
#[tactic(auto, unfolding(rules::specs::Editions::is_edition))]
pub fn is_edition(edition: u32) -> bool
    ensures { result ≡ is_edition edition }
{
    (1..=4).contains(&edition)
}

// A cell with a splice mark adds no loss by its own gap: 2 and later.
#[tactic(auto, unfolding(rules::specs::Editions::heeds_splices))]
pub fn heeds_splices(edition: u64) -> bool
    ensures { result ≡ heeds_splices edition }
{
    2 <= edition
}

// A change is rounded to the nearest, where it is cut off otherwise: 3 and later.
#[tactic(auto, unfolding(rules::specs::Editions::rounds_to_nearest))]
pub fn rounds_to_nearest(edition: u32) -> bool
    ensures { result ≡ rounds_to_nearest edition }
{
    3 <= edition
}

// A damaged cell of PID is set apart, and counted in word 28 of its unit: 4 and later.
#[tactic(auto, unfolding(rules::specs::Editions::knows_damage))]
pub fn knows_damage(edition: u64) -> bool
    ensures { result ≡ knows_damage edition }
{
    4 <= edition
}
