ghost use Rattle.dirac_units.specs.Cut.{EachHasACut, EndsRefuseNone, NoneHasTwoCuts};

/// Each list of bytes is cut into units, and then the lawful end or a fault, in exactly one way.
pub fn bytes_have_one_cut()
    ensures each_has_a_cut { EachHasACut }
    ensures none_has_two_cuts { NoneHasTwoCuts }
{}

/// Where bytes end between units or within one, the parse info at their front isn't refused.
pub fn ends_refuse_none()
    ensures { EndsRefuseNone }
{}
