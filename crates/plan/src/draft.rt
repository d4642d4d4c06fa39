use length::DataLength;

pub mod printing;

// A plan in the making: every value is set freely. It is moved and never copied.
#[derive(Debug, Drop)]
pub struct Draft {
    pub id: u16,
    pub address: u16,
    // in milliseconds
    pub watchdog: u16,
    pub length: DataLength,
    // how many of the sixteen user parameter octets count
    pub user_octets: u16,
}
