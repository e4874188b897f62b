ghost use Rattle.descent.specs.Theorems.{CourseInUse, CourseLong, CourseRoutes, CourseTrails, CourseWithin};

/// The course of a search that ends in a gap. Over a faithful tree it is the route to the place of the search key. Over any
/// store its places are places of its nodes, which lead down by them and are in use; and it has one of each for every level.
pub fn courses_are_routes()
    ensures routes { CourseRoutes }
    ensures within { CourseWithin }
    ensures trails { CourseTrails }
    ensures used { CourseInUse }
    ensures long { CourseLong }
{}
