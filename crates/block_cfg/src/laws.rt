//! Which bodies have points.

ghost use Rattle.block_cfg.specs.Law.{AnsweredBodiesHavePoints, BodiesHavePoints};

/// The points of each body of a sealed module can be asked for.
pub fn law_bodies_have_points()
    ensures bodies { BodiesHavePoints }
    ensures answered { AnsweredBodiesHavePoints }
{}
