//! Laws of the definitions that the contracts cite.

ghost use Rattle.krb_names.specs.Laws.{HasComponents, IsNameWithoutStar};

/// A pattern without a star asks for what the name asks for, but not for names without components.
pub fn patterns_without_star_are_names()
    ensures named { IsNameWithoutStar }
    ensures components { HasComponents }
{}
