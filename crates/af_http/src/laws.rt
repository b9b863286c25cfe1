// The laws of what stands in a text. Each is the contract of a function that does nothing.
ghost use Rattle.af_http.specs.Laws.{OneAnswer, OneRequest, OneReading};

use crate::service::Service;

/// One request at most begins a text, and it leaves one rest.
pub fn one_request()
    ensures { OneRequest }
{}

/// A service answers in one way where what it tells of a call, and how that leaves it, are those of a function: also of a call
/// whose body was not read for lack of memory, of which that function says what it says of the whole one, or nothing.
pub fn one_answer<S: Service>()
    ensures { OneAnswer S.answers }
{}

/// A text has one reading: a run that ends for what stands in its text is determined by the text, by whether the input
/// ended behind it, and by the service, where that answers in one way.
pub fn one_reading<S: Service>()
    ensures { OneReading S.answers }
{}
