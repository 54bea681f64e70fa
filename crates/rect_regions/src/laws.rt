// What the definitions come to, as facts that a proof gets by a call: each call does nothing.
ghost use Rattle.rect_regions.specs.BandLaws.{HasOneList, EqualByPoints};

/// A set of points has one row-band list.
pub fn one_row_band_list()
    ensures { HasOneList }
{}

/// Row-band lists with the same points are equal, and so are the values of regions.
pub fn equal_by_points()
    ensures { EqualByPoints }
{}
