// Four event alarms: their settings, and what is kept of them. There is no code here.
#![tactic(auto)]

// The settings of an alarm.
#[derive(Clone, Copy)]
pub struct AlarmSetting {
    pub kind: u8, // 0 to 8; a number, since one out of range has a refusal, 41
    pub high: i16, // H
    pub low: i16, // L
    pub sensitivity: u16, // C
    pub delay: u16, // ticks
    pub flags: u8, // hold 1, standby 2
}

// Those of all four, and the alarms below, as fields and no array: definitions and theorems (`all_in_range`, `all_judged`) name each.
#[derive(Clone, Copy)]
pub struct AlarmSettings {
    pub first: AlarmSetting,
    pub second: AlarmSetting,
    pub third: AlarmSetting,
    pub fourth: AlarmSetting,
}

// An alarm.
#[derive(Clone, Copy)]
pub struct Alarm {
    pub flags: u8, // on 1, standby passed 2
    pub count: u16, // delay count: the true ticks so far
}

#[derive(Clone, Copy)]
pub struct Alarms {
    pub first: Alarm,
    pub second: Alarm,
    pub third: Alarm,
    pub fourth: Alarm,
}
