// A call of an end, for programs that make a list of calls. An enum and no closure: the contract of a run names its calls.
use shared_end::data_command::DataCommand;

#[derive(Clone, Copy)]
pub enum Call<'a> {
    Tick,
    Reset,
    ReadOut,
    Feedback(bool),
    // the octets and the data command
    Set(&'a [u8], DataCommand),
    // the octets and the session number to use
    Frame(&'a [u8], u16),
}
