// Each limit of the code is the number that the definitions have: nothing but these contracts ties the two.
ghost use Rattle.std.specs.Prelude.{◌≡◌, ◌+◌};
ghost use Rattle.paper.specs.Numbers.{max_sites, max_sources, max_fields, max_rules, max_items, max_constrained, max_equal, max_sets, max_term, max_unfolding, max_digits};

pub fn sites() -> usize
    ensures { result ≡ max_sites }
{
    crate::SITES
}

pub fn sources() -> usize
    ensures { result ≡ max_sources }
{
    crate::SOURCES
}

pub fn fields() -> usize
    ensures { result ≡ max_fields }
{
    crate::FIELDS
}

pub fn rules() -> usize
    ensures { result ≡ max_rules }
{
    crate::RULES
}

pub fn items() -> usize
    ensures { result ≡ max_items }
{
    crate::ITEMS
}

pub fn constrained() -> usize
    ensures { result ≡ max_constrained }
{
    crate::CONSTRAINED
}

pub fn equals() -> usize
    ensures { result ≡ max_equal }
{
    crate::EQUALS
}

pub fn sets() -> usize
    ensures { result ≡ max_sets }
{
    crate::SETS
}

pub fn terms() -> usize
    ensures { result ≡ max_term + 1 }
{
    crate::TERMS
}

pub fn unfolding() -> usize
    ensures { result ≡ max_unfolding }
{
    crate::UNFOLDING
}

pub fn digits() -> usize
    ensures { result ≡ max_digits }
{
    crate::DIGITS
}
