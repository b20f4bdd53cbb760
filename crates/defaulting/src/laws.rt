//! The law of the initial style. This function does nothing: its contract is the law.

ghost use Rattle.defaulting.specs.InitialStyle.{IsInitial};
ghost use Rattle.style_types.specs.Initial.{initial};

/// Each field of the initial style has what the initial value of its property in the table of properties computes to
/// (CSS 2, 6.1.1).
pub fn the_initial_style_is_of_the_table()
    ensures { IsInitial initial }
{}
