//! The laws that the lines of a lone map stand on, in one record. Nothing runs here.
ghost use Rattle.nr_script.specs.Alone.{Laws};

pub(crate) fn laws()
    ensures { Laws }
{
    nr_map::laws::entries_are_callers();
    nr_map::laws::no_slot_means_all_in_use();
    nr_map::laws::done_means_fewer_in_use();
    nr_core::laws::put_goes_on();
    nr_model::laws::legal_goes_on();
    nr_model::laws::legal_begins();
}
