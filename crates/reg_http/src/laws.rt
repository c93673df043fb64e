//! Laws of the definitions.
ghost use Rattle.reg_http.specs.Reading.{HasOneReading};
ghost use Rattle.reg_http.specs.Rendering.{HasOneRendering};

/// The bytes of a connection are read as at most one thing: nothing, one refusal, or one request.
pub fn one_reading()
    ensures { HasOneReading }
{}

/// An answer is rendered as one text at most, byte for byte.
pub fn one_rendering()
    ensures { HasOneRendering }
{}
