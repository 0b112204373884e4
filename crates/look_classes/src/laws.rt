//! Laws of the words in which looks are defined. The functions do nothing: their contracts hold of
//! every region.
ghost use Rattle.look_classes.specs.Laws.{AreKeyEdges, IsBackOfFurther, ArePlaces, HasOneNumbering};

use region_grower::Region;

/// A dart of a live cell is at place 0 exactly where its side is the key edge of the corner at its
/// left end, however long its contour is.
pub fn key_edges(region: &Region<'_>)
    ensures { AreKeyEdges region.now }
{
    let _joins = region.joins();
}

/// One tile back round a corner undoes LX, and the place of a dart is the least number of LX, below
/// the valence, that lead from a dart at place 0, its base, to it.
pub fn ways_back(region: &Region<'_>)
    ensures back { IsBackOfFurther region.now }
    ensures places { ArePlaces region.now }
{
    let _joins = region.joins();
}

/// Two lists of classes of one region to one horizon are the same.
pub fn one_numbering(region: &Region<'_>)
    ensures { HasOneNumbering region.now }
{
    let _joins = region.joins();
}
